// The numbers of the faults, in the order in which they are looked for, but that the owners of refs are looked at before the other three of their table.
// A table has three, from its number on: it counts more than it has room for; one of its records is not well formed, or an unused place is not blank; its
// keys do not ascend. A log has the first two.
// Kept: numbers, since `start_fault` and `metadata_fault` promise the number that `first_of` of specs/ finds, and a table adds to its first one.
pub const NONE: u8 = 0;

pub const FORMAT_VERSION: u8 = 1;

pub const LOCATION: u8 = 2;

pub const LAST_SEQUENCE_NUMBER: u8 = 3;

// A current snapshot that is not set and whose place is not blank.
pub const CURRENT_SNAPSHOT: u8 = 4;

// Below 0.
pub const LAST_PARTITION_ID: u8 = 5;

pub const SNAPSHOTS: u8 = 6;

pub const REFS: u8 = 9;

pub const SNAPSHOT_LOG: u8 = 12;

pub const METADATA_LOG: u8 = 14;

pub const SCHEMAS: u8 = 16;

pub const SORT_ORDERS: u8 = 19;

pub const STATISTICS: u8 = 22;

pub const PARTITION_STATISTICS: u8 = 25;

pub const PARTITION_SPECS: u8 = 28;

pub const REF_NOT_HELD: u8 = 31;

pub const MAIN_DISAGREES: u8 = 32;

pub const CURRENT_SCHEMA_NOT_HELD: u8 = 33;

pub const DEFAULT_SORT_ORDER_NOT_HELD: u8 = 34;

pub const DEFAULT_SPEC_NOT_HELD: u8 = 35;

pub const CURRENT_FILE_NAME: u8 = 36;

// Of a table that has room for its refs.
pub const REF_OWNER: u8 = 37;
