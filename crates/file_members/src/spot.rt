// The members of a metadata file and of the records in it, by their numbers: record by record, each in the order of the rule's table.
// Anything, passed over; or no member.
pub const NOTHING: usize = 0;

// The members of the file.
pub const FORMAT_VERSION: usize = 1;

pub const TABLE_UUID: usize = 2;

pub const LOCATION: usize = 3;

pub const LAST_SEQUENCE_NUMBER: usize = 4;

pub const LAST_UPDATED_MS: usize = 5;

pub const LAST_COLUMN_ID: usize = 6;

pub const SCHEMA: usize = 7;

pub const SCHEMAS: usize = 8;

pub const CURRENT_SCHEMA_ID: usize = 9;

pub const PARTITION_SPEC: usize = 10;

pub const PARTITION_SPECS: usize = 11;

pub const DEFAULT_SPEC_ID: usize = 12;

pub const LAST_PARTITION_ID: usize = 13;

pub const CURRENT_SNAPSHOT_ID: usize = 14;

pub const SNAPSHOTS: usize = 15;

pub const SNAPSHOT_LOG: usize = 16;

pub const METADATA_LOG: usize = 17;

pub const SORT_ORDERS: usize = 18;

pub const DEFAULT_SORT_ORDER_ID: usize = 19;

pub const REFS: usize = 20;

pub const STATISTICS: usize = 21;

pub const PARTITION_STATISTICS: usize = 22;

pub const NEXT_ROW_ID: usize = 23;

// Those of a snapshot.
pub const SNAPSHOT_ID: usize = 24;

pub const PARENT_SNAPSHOT_ID: usize = 25;

pub const SEQUENCE_NUMBER: usize = 26;

pub const TIMESTAMP_MS: usize = 27;

pub const FIRST_ROW_ID: usize = 28;

pub const ADDED_ROWS: usize = 29;

pub const MANIFEST_LIST: usize = 30;

pub const SUMMARY: usize = 31;

pub const SNAPSHOT_SCHEMA_ID: usize = 32;

// Those of a schema, and of a field.
pub const SCHEMA_TYPE: usize = 33;

pub const SCHEMA_FIELDS: usize = 34;

pub const SCHEMA_ID: usize = 35;

pub const FIELD_ID: usize = 36;

pub const FIELD_NAME: usize = 37;

pub const FIELD_REQUIRED: usize = 38;

pub const FIELD_TYPE: usize = 39;

// Those of a partition spec, and of a partition field.
pub const SPEC_ID: usize = 40;

pub const SPEC_FIELDS: usize = 41;

pub const PARTITION_SOURCE_ID: usize = 42;

pub const PARTITION_FIELD_ID: usize = 43;

pub const PARTITION_NAME: usize = 44;

pub const PARTITION_TRANSFORM: usize = 45;

// Those of a sort order, and of a sort field.
pub const ORDER_ID: usize = 46;

pub const ORDER_FIELDS: usize = 47;

pub const SORT_TRANSFORM: usize = 48;

pub const SORT_SOURCE_ID: usize = 49;

pub const DIRECTION: usize = 50;

pub const NULL_ORDER: usize = 51;

// Those of a ref.
pub const REF_SNAPSHOT_ID: usize = 52;

pub const REF_TYPE: usize = 53;

pub const MIN_SNAPSHOTS_TO_KEEP: usize = 54;

pub const MAX_SNAPSHOT_AGE_MS: usize = 55;

pub const MAX_REF_AGE_MS: usize = 56;

// Those of an entry of the snapshot log, and of one of the metadata log.
pub const LOG_SNAPSHOT_ID: usize = 57;

pub const LOG_TIMESTAMP_MS: usize = 58;

pub const METADATA_FILE: usize = 59;

pub const FILE_TIMESTAMP_MS: usize = 60;

// Those of a statistics file, and of a partition statistics file.
pub const STATISTICS_SNAPSHOT_ID: usize = 61;

pub const STATISTICS_PATH: usize = 62;

pub const STATISTICS_SIZE: usize = 63;

pub const FOOTER_SIZE: usize = 64;

pub const BLOB_METADATA: usize = 65;

pub const PARTITION_FILE_SNAPSHOT_ID: usize = 66;

pub const PARTITION_FILE_PATH: usize = 67;

pub const PARTITION_FILE_SIZE: usize = 68;

// No member is this or above.
pub const MEMBERS: usize = 69;
