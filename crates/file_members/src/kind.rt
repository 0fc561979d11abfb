// The records of a metadata file, by their numbers: the file first, and what stands in it.
ghost use Rattle.std.specs.Prelude.{◌≡◌};
ghost use Rattle.file_members.specs.Names.{first_of, count_of};

use crate::spot::{
    FIELD_ID, FORMAT_VERSION, LOG_SNAPSHOT_ID, METADATA_FILE, NOTHING, ORDER_ID,
    PARTITION_FILE_SNAPSHOT_ID, PARTITION_SOURCE_ID, REF_SNAPSHOT_ID, SCHEMA_TYPE, SNAPSHOT_ID,
    SORT_TRANSFORM, SPEC_ID, STATISTICS_SNAPSHOT_ID,
};

// Kept: numbers, since file_cells/specs/Wants.antt numbers kinds, members and wants, and the contracts of this crate are stated over those numbers.
pub const THE_FILE: usize = 0;

pub const HELD_SNAPSHOT: usize = 1;

pub const HELD_SCHEMA: usize = 2;

pub const HELD_FIELD: usize = 3;

pub const HELD_SPEC: usize = 4;

pub const HELD_PARTITION_FIELD: usize = 5;

pub const HELD_ORDER: usize = 6;

pub const HELD_SORT_FIELD: usize = 7;

pub const HELD_REF: usize = 8;

pub const HELD_LOG_ENTRY: usize = 9;

pub const HELD_FILE_ENTRY: usize = 10;

pub const HELD_STATISTICS: usize = 11;

pub const HELD_PARTITION_STATISTICS: usize = 12;

// What is no record.
pub const NO_KIND: usize = 13;

// The number of the first member of a record; 0 where it is none.
pub fn first_of(kind: usize) -> usize
    ensures { result ≡ first_of kind }
{
    match kind {
        THE_FILE => FORMAT_VERSION,
        HELD_SNAPSHOT => SNAPSHOT_ID,
        HELD_SCHEMA => SCHEMA_TYPE,
        HELD_FIELD => FIELD_ID,
        HELD_SPEC => SPEC_ID,
        HELD_PARTITION_FIELD => PARTITION_SOURCE_ID,
        HELD_ORDER => ORDER_ID,
        HELD_SORT_FIELD => SORT_TRANSFORM,
        HELD_REF => REF_SNAPSHOT_ID,
        HELD_LOG_ENTRY => LOG_SNAPSHOT_ID,
        HELD_FILE_ENTRY => METADATA_FILE,
        HELD_STATISTICS => STATISTICS_SNAPSHOT_ID,
        HELD_PARTITION_STATISTICS => PARTITION_FILE_SNAPSHOT_ID,
        _ => NOTHING,
    }
}

// How many members a record has, over all versions; 0 where it is none.
pub fn count_of(kind: usize) -> usize
    ensures { result ≡ count_of kind }
{
    match kind {
        THE_FILE => 23,
        HELD_SNAPSHOT => 9,
        HELD_SCHEMA | HELD_PARTITION_STATISTICS => 3,
        HELD_FIELD | HELD_PARTITION_FIELD | HELD_SORT_FIELD => 4,
        HELD_SPEC | HELD_ORDER | HELD_LOG_ENTRY => 2,
        HELD_FILE_ENTRY => 2,
        HELD_REF | HELD_STATISTICS => 5,
        _ => 0,
    }
}
