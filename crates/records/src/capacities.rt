// How many of each a record has room for: document 01, "Capacities and well-formed records".
pub const SNAPSHOTS: usize = 64;

pub const REFS: usize = 16;

pub const SNAPSHOT_LOG: usize = 128;

pub const METADATA_LOG: usize = 128;

pub const SCHEMAS: usize = 16;

pub const SCHEMA_FIELDS: usize = 32;

pub const SORT_ORDERS: usize = 16;

pub const SORT_FIELDS: usize = 8;

pub const PARTITION_SPECS: usize = 16;

pub const PARTITION_FIELDS: usize = 8;

pub const STATISTICS: usize = 32;

pub const REMOVALS: usize = 16;

pub const NAME: usize = 32;

// A location, a file name or a path.
pub const TEXT: usize = 96;

pub const UPDATES: usize = 64;

// The bytes in which a field of a schema is offered: four of its id, the lowest first, one of its type, one of its name's length, and 32 of its name.
pub const FIELD_BYTES: usize = 38;

// Those in which a field of a partition spec is offered: four of its source's id, the lowest first, one of its transform, four of the number of its buckets,
// the lowest first, one of its name's length, and 32 of its name.
pub const PARTITION_BYTES: usize = 42;

// Those of every field that a list can offer; 32 fields of a schema take more than 8 of a partition spec.
pub const OFFERS: usize = 77824;
