// The parts of metadata that are compared, numbered in the order of the case format.
// Kept: `Difference.part` is a number in the contract of `first_difference` and in the theorems `same_exactly` and `first_reported`.
pub const FORMAT_VERSION: u8 = 1;

pub const TABLE_UUID: u8 = 2;

pub const LOCATION: u8 = 3;

pub const LAST_UPDATED: u8 = 4;

pub const LAST_SEQUENCE_NUMBER: u8 = 5;

pub const NEXT_ROW_ID: u8 = 6;

pub const LAST_COLUMN_ID: u8 = 7;

pub const CURRENT_SNAPSHOT: u8 = 8;

pub const SNAPSHOTS: u8 = 9;

pub const REFS: u8 = 10;

pub const SNAPSHOT_LOG: u8 = 11;

pub const METADATA_LOG: u8 = 12;

pub const SCHEMAS: u8 = 13;

pub const CURRENT_SCHEMA: u8 = 14;

pub const SORT_ORDERS: u8 = 15;

pub const DEFAULT_SORT_ORDER: u8 = 16;

pub const STATISTICS: u8 = 17;

pub const PARTITION_STATISTICS: u8 = 18;

pub const PARTITION_SPECS: u8 = 19;

pub const DEFAULT_SPEC: u8 = 20;

pub const LAST_PARTITION_ID: u8 = 21;
