// How a member stands in a version of the format.
ghost use Rattle.std.specs.Prelude.{◌≡◌};
ghost use Rattle.rules.specs.Words.{is_some};
ghost use Rattle.file_members.specs.Standings.{by_version, standing_at, published_at};

use crate::spot::{
    ADDED_ROWS, BLOB_METADATA, CURRENT_SCHEMA_ID, CURRENT_SNAPSHOT_ID, DEFAULT_SORT_ORDER_ID,
    DEFAULT_SPEC_ID, FIRST_ROW_ID, FOOTER_SIZE, LAST_PARTITION_ID, LAST_SEQUENCE_NUMBER,
    MANIFEST_LIST, MAX_REF_AGE_MS, MAX_SNAPSHOT_AGE_MS, MEMBERS, METADATA_LOG,
    MIN_SNAPSHOTS_TO_KEEP, NEXT_ROW_ID, NOTHING, PARENT_SNAPSHOT_ID, PARTITION_FIELD_ID,
    PARTITION_SPEC, PARTITION_SPECS, PARTITION_STATISTICS, REFS, SCHEMA, SCHEMA_ID, SCHEMAS,
    SEQUENCE_NUMBER, SNAPSHOT_LOG, SNAPSHOT_SCHEMA_ID, SNAPSHOTS, SORT_ORDERS, STATISTICS, SUMMARY,
    TABLE_UUID,
};

// Not published; of a version that is none of the three: not in each.
// Kept: numbers, since `standing_at` of specs/Standings.antt gives them, and file_walk is proved over it.
pub const ABSENT: u8 = 0;

pub const OPTIONAL: u8 = 1;

pub const REQUIRED: u8 = 2;

fn by_version(version: usize, one: u8, two: u8, three: u8, other: u8) -> u8
    ensures { result ≡ by_version version one two three other }
{
    match version {
        1 => one,
        2 => two,
        3 => three,
        _ => other,
    }
}

// Of the number of a member: 0 of what is none. Most are required in each version.
pub fn standing(version: usize, spot: usize) -> u8
    ensures { result ≡ standing_at version spot }
{
    if spot == NOTHING {
        return ABSENT;
    }
    if spot >= MEMBERS {
        return ABSENT;
    }
    match spot {
        SCHEMA | PARTITION_SPEC => by_version(version, REQUIRED, ABSENT, ABSENT, ABSENT),
        LAST_SEQUENCE_NUMBER | SEQUENCE_NUMBER => {
            by_version(version, ABSENT, REQUIRED, REQUIRED, ABSENT)
        }
        NEXT_ROW_ID => by_version(version, ABSENT, ABSENT, REQUIRED, ABSENT),
        FIRST_ROW_ID => by_version(version, ABSENT, ABSENT, OPTIONAL, ABSENT),
        ADDED_ROWS => by_version(version, ABSENT, ABSENT, OPTIONAL, ABSENT),
        TABLE_UUID
        | SCHEMAS
        | PARTITION_SPECS
        | LAST_PARTITION_ID
        | SORT_ORDERS
        | SCHEMA_ID
        | PARTITION_FIELD_ID => by_version(version, OPTIONAL, REQUIRED, REQUIRED, OPTIONAL),
        CURRENT_SCHEMA_ID | DEFAULT_SPEC_ID | DEFAULT_SORT_ORDER_ID => by_version(
            version, OPTIONAL, REQUIRED, REQUIRED, OPTIONAL,
        ),
        CURRENT_SNAPSHOT_ID
        | SNAPSHOT_LOG
        | REFS
        | PARTITION_STATISTICS
        | PARENT_SNAPSHOT_ID
        | MANIFEST_LIST
        | SNAPSHOT_SCHEMA_ID
        | MIN_SNAPSHOTS_TO_KEEP
        | MAX_REF_AGE_MS
        | FOOTER_SIZE => OPTIONAL,
        SNAPSHOTS | METADATA_LOG | STATISTICS | SUMMARY | MAX_SNAPSHOT_AGE_MS | BLOB_METADATA =>
            OPTIONAL,
        _ => REQUIRED,
    }
}

// Whether a version publishes a member. One that is none of the three publishes all.
pub fn is_published(version: usize, spot: usize) -> bool
    ensures { result ≡ is_some (published_at version spot) }
{
    if spot == NOTHING {
        return false;
    }
    if spot >= MEMBERS {
        return false;
    }
    match version {
        1 | 3 => standing(version, spot) != ABSENT,
        2 => standing(version, spot) != ABSENT,
        _ => true,
    }
}
