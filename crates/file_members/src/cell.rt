// The cells that values take: where they begin in a record, and how many there are.
ghost use Rattle.std.specs.Prelude.{◌≡◌, cond, ltb};
ghost use Rattle.file_cells.specs.Wants.{shape_of_row, row_at};
ghost use Rattle.file_cells.specs.Cells.{size_of, size_at, offset_at};
ghost use Rattle.file_members.specs.Names.{kind_size_at};

use crate::kind::{
    HELD_FIELD, HELD_FILE_ENTRY, HELD_LOG_ENTRY, HELD_ORDER, HELD_PARTITION_FIELD,
    HELD_PARTITION_STATISTICS, HELD_REF, HELD_SCHEMA, HELD_SNAPSHOT, HELD_SORT_FIELD, HELD_SPEC,
    HELD_STATISTICS, THE_FILE,
};
use crate::spot::{
    ADDED_ROWS, BLOB_METADATA, CURRENT_SCHEMA_ID, CURRENT_SNAPSHOT_ID, DEFAULT_SORT_ORDER_ID,
    DEFAULT_SPEC_ID, DIRECTION, FIELD_NAME, FIELD_REQUIRED, FIELD_TYPE, FILE_TIMESTAMP_MS,
    FIRST_ROW_ID, FOOTER_SIZE, LAST_COLUMN_ID, LAST_PARTITION_ID, LAST_SEQUENCE_NUMBER,
    LAST_UPDATED_MS, LOCATION, LOG_TIMESTAMP_MS, MANIFEST_LIST, MAX_REF_AGE_MS,
    MAX_SNAPSHOT_AGE_MS, MEMBERS, METADATA_LOG, MIN_SNAPSHOTS_TO_KEEP, NEXT_ROW_ID, NOTHING,
    NULL_ORDER, ORDER_FIELDS, PARENT_SNAPSHOT_ID, PARTITION_FIELD_ID, PARTITION_FILE_PATH,
    PARTITION_FILE_SIZE, PARTITION_NAME, PARTITION_SPEC, PARTITION_SPECS, PARTITION_STATISTICS,
    PARTITION_TRANSFORM, REF_TYPE, REFS, SCHEMA, SCHEMA_FIELDS, SCHEMA_ID, SCHEMAS,
    SEQUENCE_NUMBER, SNAPSHOT_LOG, SNAPSHOT_SCHEMA_ID, SNAPSHOTS, SORT_ORDERS, SORT_SOURCE_ID,
    SPEC_FIELDS, STATISTICS, STATISTICS_PATH, STATISTICS_SIZE, SUMMARY, TABLE_UUID, TIMESTAMP_MS,
};
use crate::want::RECORDS;

// Of a member of the file.
fn file_offset(spot: usize) -> usize
    ensures { result ≡ cond (ltb spot 24) (offset_at spot) 0 }
{
    match spot {
        TABLE_UUID => 2,
        LOCATION => 4,
        LAST_SEQUENCE_NUMBER => 6,
        LAST_UPDATED_MS => 8,
        LAST_COLUMN_ID => 10,
        SCHEMA => 12,
        SCHEMAS => 273,
        CURRENT_SCHEMA_ID => 4450,
        PARTITION_SPEC => 4452,
        PARTITION_SPECS => 4517,
        DEFAULT_SPEC_ID => 5590,
        LAST_PARTITION_ID => 5592,
        CURRENT_SNAPSHOT_ID => 5594,
        SNAPSHOTS => 5596,
        SNAPSHOT_LOG => 6365,
        METADATA_LOG => 6878,
        SORT_ORDERS => 7391,
        DEFAULT_SORT_ORDER_ID => 8464,
        REFS => 8466,
        STATISTICS => 8659,
        PARTITION_STATISTICS => 8852,
        NEXT_ROW_ID => 9045,
        _ => 0,
    }
}

// Where the cells of a member begin, counted from those of its record; 0 of what is none.
pub fn offset_of(spot: usize) -> usize
    ensures { result ≡ offset_at spot }
{
    match spot {
        PARENT_SNAPSHOT_ID
        | SCHEMA_FIELDS
        | FIELD_NAME
        | SPEC_FIELDS
        | PARTITION_FIELD_ID
        | ORDER_FIELDS
        | SORT_SOURCE_ID
        | REF_TYPE
        | LOG_TIMESTAMP_MS
        | FILE_TIMESTAMP_MS
        | STATISTICS_PATH
        | PARTITION_FILE_PATH => 2,
        SEQUENCE_NUMBER
        | FIELD_REQUIRED
        | PARTITION_NAME
        | DIRECTION
        | MIN_SNAPSHOTS_TO_KEEP
        | STATISTICS_SIZE
        | PARTITION_FILE_SIZE => 4,
        TIMESTAMP_MS
        | FIELD_TYPE
        | PARTITION_TRANSFORM
        | NULL_ORDER
        | MAX_SNAPSHOT_AGE_MS
        | FOOTER_SIZE => 6,
        BLOB_METADATA => 6,
        FIRST_ROW_ID | MAX_REF_AGE_MS => 8,
        ADDED_ROWS => 10,
        MANIFEST_LIST | SNAPSHOT_SCHEMA_ID => 12,
        SUMMARY => 12,
        SCHEMA_ID => 259,
        _ => file_offset(spot),
    }
}

// Of a record: the sum over its members.
fn kind_size(kind: usize) -> usize
    ensures { result ≡ kind_size_at kind }
{
    match kind {
        THE_FILE => 9047,
        HELD_SNAPSHOT => 12,
        HELD_SCHEMA => 261,
        HELD_SPEC | HELD_ORDER => 67,
        HELD_FIELD | HELD_PARTITION_FIELD | HELD_SORT_FIELD => 8,
        HELD_REF => 10,
        HELD_LOG_ENTRY => 4,
        HELD_FILE_ENTRY => 4,
        HELD_STATISTICS => 6,
        HELD_PARTITION_STATISTICS => 6,
        _ => 0,
    }
}

// Of a member: two where it is a text, a number or a word.
fn member_size(spot: usize) -> usize
    ensures { result ≡ size_of (shape_of_row (row_at spot)) }
{
    if spot == NOTHING {
        return 0;
    }
    if spot >= MEMBERS {
        return 0;
    }
    match spot {
        SCHEMA => 261,
        SCHEMAS => 4177,
        PARTITION_SPECS | SORT_ORDERS => 1073,
        SNAPSHOTS => 769,
        SNAPSHOT_LOG => 513,
        METADATA_LOG => 513,
        SCHEMA_FIELDS => 257,
        REFS | PARTITION_STATISTICS => 193,
        STATISTICS => 193,
        PARTITION_SPEC | SPEC_FIELDS | ORDER_FIELDS => 65,
        MANIFEST_LIST | SNAPSHOT_SCHEMA_ID | FOOTER_SIZE => 0,
        SUMMARY | BLOB_METADATA => 0,
        _ => 2,
    }
}

// How many cells are taken by what is wanted.
pub fn size_of(want: usize) -> usize
    ensures { result ≡ size_at want }
{
    if want < RECORDS {
        return member_size(want);
    }
    kind_size(want - RECORDS)
}
