// Where the members of a metadata file have their cells, and how many cells the records of a list have.
pub const TABLE_UUID: usize = 2;

pub const LOCATION: usize = 4;

pub const LAST_SEQUENCE_NUMBER: usize = 6;

pub const LAST_UPDATED_MS: usize = 8;

pub const LAST_COLUMN_ID: usize = 10;

pub const SINGLE_SCHEMA: usize = 12;

pub const SCHEMAS: usize = 273;

pub const CURRENT_SCHEMA_ID: usize = 4450;

pub const SINGLE_SPEC: usize = 4452;

pub const PARTITION_SPECS: usize = 4517;

pub const DEFAULT_SPEC_ID: usize = 5590;

pub const LAST_PARTITION_ID: usize = 5592;

pub const CURRENT_SNAPSHOT_ID: usize = 5594;

pub const SNAPSHOTS: usize = 5596;

pub const SNAPSHOT_LOG: usize = 6365;

pub const METADATA_LOG: usize = 6878;

pub const SORT_ORDERS: usize = 7391;

pub const DEFAULT_SORT_ORDER_ID: usize = 8464;

pub const REFS: usize = 8466;

pub const STATISTICS: usize = 8659;

pub const PARTITION_STATISTICS: usize = 8852;

pub const NEXT_ROW_ID: usize = 9045;

// A snapshot, and a ref with its name.
pub const SNAPSHOT: usize = 12;

pub const REF: usize = 12;

pub const SCHEMA: usize = 261;

// Where a schema has its id.
pub const SCHEMA_ID: usize = 259;

// A partition spec, and a sort order: the id and its fields.
pub const SPEC: usize = 67;

pub const ORDER: usize = 67;

pub const LOG_ENTRY: usize = 4;

pub const STATISTICS_FILE: usize = 6;
