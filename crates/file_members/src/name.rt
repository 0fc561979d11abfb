// The names of the members of each record: which member a name is there, or 0 where it is unknown. They are asked in the order of the rule's tables.
ghost use Rattle.std.specs.Prelude.{◌≡◌, cond, ◌≤◌, eqb, drop, length};
ghost use Rattle.std.proofs.Math.Option.{some};
ghost use Rattle.rules.specs.Words.{same_bytes};
ghost use Rattle.json_machine.specs.Digest.{lone_length};
ghost use Rattle.json_members.specs.Kept.{front};
ghost use Rattle.json_members.specs.Words.{number_of, number_after};
ghost use Rattle.file_rule.specs.Tables.FileKind.{TheFile, HeldSnapshot, HeldSchema, HeldField, HeldSpec, HeldPartitionField, HeldOrder, HeldSortField, HeldRef, HeldLogEntry, HeldFileEntry, HeldStatistics, HeldPartitionStatistics};
ghost use Rattle.file_cells.specs.Wants.{spot_by};
ghost use Rattle.file_members.specs.Names.{entries_of, named_in};

use crate::kind::{
    HELD_FIELD, HELD_FILE_ENTRY, HELD_LOG_ENTRY, HELD_ORDER, HELD_PARTITION_FIELD,
    HELD_PARTITION_STATISTICS, HELD_REF, HELD_SCHEMA, HELD_SNAPSHOT, HELD_SORT_FIELD, HELD_SPEC,
    HELD_STATISTICS, THE_FILE,
};
use crate::spot::{
    ADDED_ROWS, BLOB_METADATA, CURRENT_SCHEMA_ID, CURRENT_SNAPSHOT_ID, DEFAULT_SORT_ORDER_ID,
    DEFAULT_SPEC_ID, DIRECTION, FIELD_ID, FIELD_NAME, FIELD_REQUIRED, FIELD_TYPE,
    FILE_TIMESTAMP_MS, FIRST_ROW_ID, FOOTER_SIZE, FORMAT_VERSION, LAST_COLUMN_ID,
    LAST_PARTITION_ID, LAST_SEQUENCE_NUMBER, LAST_UPDATED_MS, LOCATION, LOG_SNAPSHOT_ID,
    LOG_TIMESTAMP_MS, MANIFEST_LIST, MAX_REF_AGE_MS, MAX_SNAPSHOT_AGE_MS, METADATA_FILE,
    METADATA_LOG, MIN_SNAPSHOTS_TO_KEEP, NEXT_ROW_ID, NOTHING, NULL_ORDER, ORDER_FIELDS, ORDER_ID,
    PARENT_SNAPSHOT_ID, PARTITION_FIELD_ID, PARTITION_FILE_PATH, PARTITION_FILE_SIZE,
    PARTITION_FILE_SNAPSHOT_ID, PARTITION_NAME, PARTITION_SOURCE_ID, PARTITION_SPEC,
    PARTITION_SPECS, PARTITION_STATISTICS, PARTITION_TRANSFORM, REF_SNAPSHOT_ID, REF_TYPE, REFS,
    SCHEMA, SCHEMA_FIELDS, SCHEMA_ID, SCHEMA_TYPE, SCHEMAS, SEQUENCE_NUMBER, SNAPSHOT_ID,
    SNAPSHOT_LOG, SNAPSHOT_SCHEMA_ID, SNAPSHOTS, SORT_ORDERS, SORT_SOURCE_ID, SORT_TRANSFORM,
    SPEC_FIELDS, SPEC_ID, STATISTICS, STATISTICS_PATH, STATISTICS_SIZE, STATISTICS_SNAPSHOT_ID,
    SUMMARY, TABLE_UUID, TIMESTAMP_MS,
};
use crate::standing::is_published;
use json_lex::text::{Kept, LONE};
use json_members::word::is_word;

// The member that was found before, or this one where the name is this word.
fn or_member(found: usize, kept: &Kept, len: usize, word: &[u8], spot: usize) -> usize
    requires { length word.now ≤ 97 }
    ensures { result ≡ cond (eqb found 0) (cond (same_bytes (front len kept.now) word.now) spot 0) found }
{
    if found != NOTHING {
        return found;
    }
    if is_word(kept, len, word) {
        return spot;
    }
    NOTHING
}

// Of the file: from the current snapshot on.
fn late_file_member(found: usize, kept: &Kept, len: usize) -> usize
    ensures { result ≡ number_after found (drop 13 (entries_of TheFile)) (front len kept.now) }
{
    let mut spot = or_member(
        found,
        kept,
        len,
        b"current-snapshot-id",
        CURRENT_SNAPSHOT_ID,
    );
    spot = or_member(spot, kept, len, b"snapshots", SNAPSHOTS);
    spot = or_member(spot, kept, len, b"snapshot-log", SNAPSHOT_LOG);
    spot = or_member(spot, kept, len, b"metadata-log", METADATA_LOG);
    spot = or_member(spot, kept, len, b"sort-orders", SORT_ORDERS);
    spot = or_member(
        spot,
        kept,
        len,
        b"default-sort-order-id",
        DEFAULT_SORT_ORDER_ID,
    );
    spot = or_member(spot, kept, len, b"refs", REFS);
    spot = or_member(spot, kept, len, b"statistics", STATISTICS);
    spot = or_member(
        spot,
        kept,
        len,
        b"partition-statistics",
        PARTITION_STATISTICS,
    );
    or_member(spot, kept, len, b"next-row-id", NEXT_ROW_ID)
}

fn file_member(kept: &Kept, len: usize) -> usize
    ensures { result ≡ number_of 0 (entries_of TheFile) (front len kept.now) }
{
    let mut spot = or_member(NOTHING, kept, len, b"format-version", FORMAT_VERSION);
    spot = or_member(spot, kept, len, b"table-uuid", TABLE_UUID);
    spot = or_member(spot, kept, len, b"location", LOCATION);
    spot = or_member(
        spot,
        kept,
        len,
        b"last-sequence-number",
        LAST_SEQUENCE_NUMBER,
    );
    spot = or_member(spot, kept, len, b"last-updated-ms", LAST_UPDATED_MS);
    spot = or_member(spot, kept, len, b"last-column-id", LAST_COLUMN_ID);
    spot = or_member(spot, kept, len, b"schema", SCHEMA);
    spot = or_member(spot, kept, len, b"schemas", SCHEMAS);
    spot = or_member(spot, kept, len, b"current-schema-id", CURRENT_SCHEMA_ID);
    spot = or_member(spot, kept, len, b"partition-spec", PARTITION_SPEC);
    spot = or_member(spot, kept, len, b"partition-specs", PARTITION_SPECS);
    spot = or_member(spot, kept, len, b"default-spec-id", DEFAULT_SPEC_ID);
    spot = or_member(spot, kept, len, b"last-partition-id", LAST_PARTITION_ID);
    late_file_member(spot, kept, len)
}

fn snapshot_member(kept: &Kept, len: usize) -> usize
    ensures { result ≡ number_of 0 (entries_of HeldSnapshot) (front len kept.now) }
{
    let mut spot = or_member(NOTHING, kept, len, b"snapshot-id", SNAPSHOT_ID);
    spot = or_member(spot, kept, len, b"parent-snapshot-id", PARENT_SNAPSHOT_ID);
    spot = or_member(spot, kept, len, b"sequence-number", SEQUENCE_NUMBER);
    spot = or_member(spot, kept, len, b"timestamp-ms", TIMESTAMP_MS);
    spot = or_member(spot, kept, len, b"first-row-id", FIRST_ROW_ID);
    spot = or_member(spot, kept, len, b"added-rows", ADDED_ROWS);
    spot = or_member(spot, kept, len, b"manifest-list", MANIFEST_LIST);
    spot = or_member(spot, kept, len, b"summary", SUMMARY);
    or_member(spot, kept, len, b"schema-id", SNAPSHOT_SCHEMA_ID)
}

fn schema_member(kept: &Kept, len: usize) -> usize
    ensures { result ≡ number_of 0 (entries_of HeldSchema) (front len kept.now) }
{
    let mut spot = or_member(NOTHING, kept, len, b"type", SCHEMA_TYPE);
    spot = or_member(spot, kept, len, b"fields", SCHEMA_FIELDS);
    or_member(spot, kept, len, b"schema-id", SCHEMA_ID)
}

fn field_member(kept: &Kept, len: usize) -> usize
    ensures { result ≡ number_of 0 (entries_of HeldField) (front len kept.now) }
{
    let mut spot = or_member(NOTHING, kept, len, b"id", FIELD_ID);
    spot = or_member(spot, kept, len, b"name", FIELD_NAME);
    spot = or_member(spot, kept, len, b"required", FIELD_REQUIRED);
    or_member(spot, kept, len, b"type", FIELD_TYPE)
}

fn spec_member(kept: &Kept, len: usize) -> usize
    ensures { result ≡ number_of 0 (entries_of HeldSpec) (front len kept.now) }
{
    let spot = or_member(NOTHING, kept, len, b"spec-id", SPEC_ID);
    or_member(spot, kept, len, b"fields", SPEC_FIELDS)
}

fn partition_field_member(kept: &Kept, len: usize) -> usize
    ensures { result ≡ number_of 0 (entries_of HeldPartitionField) (front len kept.now) }
{
    let mut spot = or_member(NOTHING, kept, len, b"source-id", PARTITION_SOURCE_ID);
    spot = or_member(spot, kept, len, b"field-id", PARTITION_FIELD_ID);
    spot = or_member(spot, kept, len, b"name", PARTITION_NAME);
    or_member(spot, kept, len, b"transform", PARTITION_TRANSFORM)
}

fn order_member(kept: &Kept, len: usize) -> usize
    ensures { result ≡ number_of 0 (entries_of HeldOrder) (front len kept.now) }
{
    let spot = or_member(NOTHING, kept, len, b"order-id", ORDER_ID);
    or_member(spot, kept, len, b"fields", ORDER_FIELDS)
}

fn sort_field_member(kept: &Kept, len: usize) -> usize
    ensures { result ≡ number_of 0 (entries_of HeldSortField) (front len kept.now) }
{
    let mut spot = or_member(NOTHING, kept, len, b"transform", SORT_TRANSFORM);
    spot = or_member(spot, kept, len, b"source-id", SORT_SOURCE_ID);
    spot = or_member(spot, kept, len, b"direction", DIRECTION);
    or_member(spot, kept, len, b"null-order", NULL_ORDER)
}

fn ref_member(kept: &Kept, len: usize) -> usize
    ensures { result ≡ number_of 0 (entries_of HeldRef) (front len kept.now) }
{
    let mut spot = or_member(NOTHING, kept, len, b"snapshot-id", REF_SNAPSHOT_ID);
    spot = or_member(spot, kept, len, b"type", REF_TYPE);
    spot = or_member(
        spot,
        kept,
        len,
        b"min-snapshots-to-keep",
        MIN_SNAPSHOTS_TO_KEEP,
    );
    spot = or_member(spot, kept, len, b"max-snapshot-age-ms", MAX_SNAPSHOT_AGE_MS);
    or_member(spot, kept, len, b"max-ref-age-ms", MAX_REF_AGE_MS)
}

fn log_entry_member(kept: &Kept, len: usize) -> usize
    ensures { result ≡ number_of 0 (entries_of HeldLogEntry) (front len kept.now) }
{
    let spot = or_member(NOTHING, kept, len, b"snapshot-id", LOG_SNAPSHOT_ID);
    or_member(spot, kept, len, b"timestamp-ms", LOG_TIMESTAMP_MS)
}

fn file_entry_member(kept: &Kept, len: usize) -> usize
    ensures { result ≡ number_of 0 (entries_of HeldFileEntry) (front len kept.now) }
{
    let spot = or_member(NOTHING, kept, len, b"metadata-file", METADATA_FILE);
    or_member(spot, kept, len, b"timestamp-ms", FILE_TIMESTAMP_MS)
}

fn statistics_member(kept: &Kept, len: usize) -> usize
    ensures { result ≡ number_of 0 (entries_of HeldStatistics) (front len kept.now) }
{
    let mut spot = or_member(NOTHING, kept, len, b"snapshot-id", STATISTICS_SNAPSHOT_ID);
    spot = or_member(spot, kept, len, b"statistics-path", STATISTICS_PATH);
    spot = or_member(spot, kept, len, b"file-size-in-bytes", STATISTICS_SIZE);
    spot = or_member(spot, kept, len, b"file-footer-size-in-bytes", FOOTER_SIZE);
    or_member(spot, kept, len, b"blob-metadata", BLOB_METADATA)
}

fn partition_statistics_member(kept: &Kept, len: usize) -> usize
    ensures { result ≡ number_of 0 (entries_of HeldPartitionStatistics) (front len kept.now) }
{
    let mut spot = or_member(
        NOTHING,
        kept,
        len,
        b"snapshot-id",
        PARTITION_FILE_SNAPSHOT_ID,
    );
    spot = or_member(spot, kept, len, b"statistics-path", PARTITION_FILE_PATH);
    or_member(spot, kept, len, b"file-size-in-bytes", PARTITION_FILE_SIZE)
}

// The member of a record that a name is, in whatever version.
fn named(kind: usize, kept: &Kept, len: usize) -> usize
    ensures { result ≡ named_in kind (front len kept.now) }
{
    match kind {
        THE_FILE => file_member(kept, len),
        HELD_SNAPSHOT => snapshot_member(kept, len),
        HELD_SCHEMA => schema_member(kept, len),
        HELD_FIELD => field_member(kept, len),
        HELD_SPEC => spec_member(kept, len),
        HELD_PARTITION_FIELD => partition_field_member(kept, len),
        HELD_ORDER => order_member(kept, len),
        HELD_SORT_FIELD => sort_field_member(kept, len),
        HELD_REF => ref_member(kept, len),
        HELD_LOG_ENTRY => log_entry_member(kept, len),
        HELD_FILE_ENTRY => file_entry_member(kept, len),
        HELD_STATISTICS => statistics_member(kept, len),
        HELD_PARTITION_STATISTICS => partition_statistics_member(kept, len),
        _ => NOTHING,
    }
}

// The member that a version publishes under a name. A name with half of a pair alone has no UTF-8, so it is none.
pub fn member(version: usize, kind: usize, kept: &Kept, len: usize) -> usize
    ensures { result ≡ cond (eqb len lone_length) 0 (spot_by version kind (some (front len kept.now))) }
{
    if len == LONE {
        return NOTHING;
    }
    let spot = named(kind, kept, len);
    if is_published(version, spot) {
        return spot;
    }
    NOTHING
}
