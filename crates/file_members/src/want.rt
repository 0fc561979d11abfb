// What may be wanted at a place of a metadata file: the value of a member, a record, or anything.
ghost use Rattle.std.specs.Prelude.{◌≡◌};
ghost use Rattle.file_cells.specs.Wants.{passes_over, shape_of, want_in, item_at, named_at, room_at, record_at, stands_at_schema};
ghost use Rattle.file_members.specs.Names.{is_something};

use crate::kind::{HELD_SCHEMA, NO_KIND};
use crate::spot::{
    BLOB_METADATA, FIELD_REQUIRED, FIELD_TYPE, FOOTER_SIZE, MANIFEST_LIST, MEMBERS, METADATA_LOG,
    NOTHING, ORDER_FIELDS, PARTITION_SPEC, PARTITION_SPECS, PARTITION_STATISTICS, REFS, SCHEMA,
    SCHEMA_FIELDS, SCHEMAS, SNAPSHOT_LOG, SNAPSHOT_SCHEMA_ID, SNAPSHOTS, SORT_ORDERS, SPEC_FIELDS,
    STATISTICS, SUMMARY,
};
use crate::standing::{ABSENT, standing};

// The wants from here on are the records.
pub const RECORDS: usize = 100;

pub const THE_WHOLE_FILE: usize = 100;

pub const A_SNAPSHOT: usize = 101;

pub const A_SCHEMA: usize = 102;

pub const A_FIELD: usize = 103;

pub const A_SPEC: usize = 104;

pub const A_PARTITION_FIELD: usize = 105;

pub const AN_ORDER: usize = 106;

pub const A_SORT_FIELD: usize = 107;

pub const A_REF: usize = 108;

pub const A_LOG_ENTRY: usize = 109;

pub const A_FILE_ENTRY: usize = 110;

pub const A_STATISTICS_FILE: usize = 111;

pub const A_PARTITION_STATISTICS_FILE: usize = 112;

// No want is this or above.
pub const WANTS: usize = 113;

// Whether a number is that of a member or a record.
fn is_something(want: usize) -> bool
    ensures { result ≡ is_something want }
{
    if want == NOTHING {
        return false;
    }
    if want < MEMBERS {
        return true;
    }
    if want < RECORDS {
        return false;
    }
    want < WANTS
}

// Whether what is wanted is anything, passed over.
pub fn passes_over(want: usize) -> bool
    ensures { result ≡ passes_over (shape_of want) }
{
    match want {
        MANIFEST_LIST | SNAPSHOT_SCHEMA_ID | FOOTER_SIZE => true,
        SUMMARY | BLOB_METADATA => true,
        _ => !is_something(want),
    }
}

// What the value of a member is to be in a version: the member's number, or 0 where it is passed over.
pub fn want_of(version: usize, spot: usize) -> usize
    ensures { result ≡ want_in version spot }
{
    if standing(version, spot) == ABSENT {
        return NOTHING;
    }
    if passes_over(spot) {
        return NOTHING;
    }
    spot
}

// What the elements of a list are to be; 0 where no list is wanted.
pub fn item_of(want: usize) -> usize
    ensures { result ≡ item_at want }
{
    match want {
        SCHEMAS => A_SCHEMA,
        PARTITION_SPECS => A_SPEC,
        SNAPSHOTS => A_SNAPSHOT,
        SNAPSHOT_LOG => A_LOG_ENTRY,
        METADATA_LOG => A_FILE_ENTRY,
        SORT_ORDERS => AN_ORDER,
        STATISTICS => A_STATISTICS_FILE,
        PARTITION_STATISTICS => A_PARTITION_STATISTICS_FILE,
        SCHEMA_FIELDS => A_FIELD,
        PARTITION_SPEC | SPEC_FIELDS => A_PARTITION_FIELD,
        ORDER_FIELDS => A_SORT_FIELD,
        _ => NOTHING,
    }
}

// What stands under names of its own; 0 where no such object is wanted.
pub fn named_of(want: usize) -> usize
    ensures { result ≡ named_at want }
{
    if want == REFS {
        return A_REF;
    }
    NOTHING
}

// How many elements a list may have, and refs; 0 where neither is wanted.
pub fn room_of(want: usize) -> usize
    ensures { result ≡ room_at want }
{
    match want {
        SNAPSHOT_LOG => 128,
        METADATA_LOG => 128,
        SNAPSHOTS => 64,
        STATISTICS | SCHEMA_FIELDS => 32,
        PARTITION_STATISTICS => 32,
        SCHEMAS | PARTITION_SPECS | SORT_ORDERS | REFS => 16,
        PARTITION_SPEC | SPEC_FIELDS | ORDER_FIELDS => 8,
        _ => 0,
    }
}

// Which record is wanted; 13 where none is.
pub fn record_of(want: usize) -> usize
    ensures { result ≡ record_at want }
{
    if want == SCHEMA {
        return HELD_SCHEMA;
    }
    if want < RECORDS {
        return NO_KIND;
    }
    if want >= WANTS {
        return NO_KIND;
    }
    want - RECORDS
}

// Whether what is wrong with the value itself stands at the schema around: with `required` and `type` of a field.
pub fn is_at_schema(want: usize) -> bool
    ensures { result ≡ stands_at_schema want }
{
    match want {
        FIELD_REQUIRED => true,
        FIELD_TYPE => true,
        _ => false,
    }
}
