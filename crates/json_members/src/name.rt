// The names of the members of each object: which spot a name is there, or `ANYTHING` where it is unknown. They are asked in the order of the rule's tables.
ghost use Rattle.std.specs.Prelude.{◌≡◌, cond, ◌≤◌, eqb, length};
ghost use Rattle.rules.specs.Words.{same_bytes};
ghost use Rattle.json_rule.specs.Shapes.Kind.{AnUpdate, ASnapshot, ASchema, AField, AnOrder, ASortField, ASpec, APartitionField};
ghost use Rattle.json_members.specs.Kept.{front};
ghost use Rattle.json_members.specs.Words.{number_of, number_after};
ghost use Rattle.json_members.specs.Spots.{names_of, spots_of, ref_spots, later_spots, member_named};

use crate::spot::{
    ACTION, ADDED_ROWS, ANYTHING, CHOSEN_ORDER_ID, CHOSEN_SCHEMA_ID, CHOSEN_SPEC_ID, DIRECTION,
    FIELD, FIELD_ID, FIELD_NAME, FIELD_REQUIRED, FIELD_TYPE, FIRST_ROW_ID, FORMAT_VERSION,
    LAST_COLUMN_ID, LOCATION, MANIFEST_LIST, MAX_REF_AGE_MS, MAX_SNAPSHOT_AGE_MS,
    MIN_SNAPSHOTS_TO_KEEP, NULL_ORDER, ORDER_FIELDS, ORDER_ID, PARENT_SNAPSHOT_ID, PARTITION_FIELD,
    PARTITION_FIELD_ID, PARTITION_NAME, PARTITION_SOURCE_ID, PARTITION_TRANSFORM, REF_NAME,
    REF_SNAPSHOT_ID, REF_TYPE, SCHEMA, SCHEMA_FIELDS, SCHEMA_ID, SCHEMA_IDS, SCHEMA_TYPE,
    SEQUENCE_NUMBER, SNAPSHOT, SNAPSHOT_ID, SNAPSHOT_IDS, SNAPSHOT_SCHEMA_ID, SORT_FIELD,
    SORT_ORDER, SORT_SOURCE_ID, SORT_TRANSFORM, SPEC, SPEC_FIELDS, SPEC_ID, SPEC_IDS, SUMMARY,
    TIMESTAMP_MS, UPDATE, UUID,
};
use crate::word::is_word;
use json_lex::text::Kept;

// The member that was found before, or this one where the name is this word.
fn or_member(found: usize, kept: &Kept, len: usize, word: &[u8], spot: usize) -> usize
    requires { length word.now ≤ 97 }
    ensures { result ≡ cond (eqb found 0) (cond (same_bytes (front len kept.now) word.now) spot 0) found }
{
    if found != ANYTHING {
        return found;
    }
    if is_word(kept, len, word) {
        return spot;
    }
    ANYTHING
}

// Of an update: of the actions on schemas, sort orders and partition specs.
fn later_member(found: usize, kept: &Kept, len: usize) -> usize
    ensures { result ≡ number_after found (names_of later_spots) (front len kept.now) }
{
    let mut spot = or_member(found, kept, len, b"schema", SCHEMA);
    spot = or_member(spot, kept, len, b"last-column-id", LAST_COLUMN_ID);
    spot = or_member(spot, kept, len, b"schema-id", CHOSEN_SCHEMA_ID);
    spot = or_member(spot, kept, len, b"schema-ids", SCHEMA_IDS);
    spot = or_member(spot, kept, len, b"sort-order", SORT_ORDER);
    spot = or_member(spot, kept, len, b"sort-order-id", CHOSEN_ORDER_ID);
    spot = or_member(spot, kept, len, b"spec", SPEC);
    spot = or_member(spot, kept, len, b"spec-id", CHOSEN_SPEC_ID);
    or_member(spot, kept, len, b"spec-ids", SPEC_IDS)
}

// Of an update: of the actions on refs, and the later ones.
fn ref_member(found: usize, kept: &Kept, len: usize) -> usize
    ensures { result ≡ number_after found (names_of ref_spots) (front len kept.now) }
{
    let mut spot = or_member(found, kept, len, b"ref-name", REF_NAME);
    spot = or_member(spot, kept, len, b"type", REF_TYPE);
    spot = or_member(spot, kept, len, b"snapshot-id", REF_SNAPSHOT_ID);
    spot = or_member(
        spot,
        kept,
        len,
        b"min-snapshots-to-keep",
        MIN_SNAPSHOTS_TO_KEEP,
    );
    spot = or_member(spot, kept, len, b"max-snapshot-age-ms", MAX_SNAPSHOT_AGE_MS);
    spot = or_member(spot, kept, len, b"max-ref-age-ms", MAX_REF_AGE_MS);
    later_member(spot, kept, len)
}

fn update_member(kept: &Kept, len: usize) -> usize
    ensures { result ≡ number_of 0 (names_of (spots_of AnUpdate)) (front len kept.now) }
{
    let mut spot = or_member(ANYTHING, kept, len, b"action", ACTION);
    spot = or_member(spot, kept, len, b"uuid", UUID);
    spot = or_member(spot, kept, len, b"format-version", FORMAT_VERSION);
    spot = or_member(spot, kept, len, b"location", LOCATION);
    spot = or_member(spot, kept, len, b"snapshot", SNAPSHOT);
    spot = or_member(spot, kept, len, b"snapshot-ids", SNAPSHOT_IDS);
    ref_member(spot, kept, len)
}

fn snapshot_member(kept: &Kept, len: usize) -> usize
    ensures { result ≡ number_of 0 (names_of (spots_of ASnapshot)) (front len kept.now) }
{
    let mut spot = or_member(ANYTHING, kept, len, b"snapshot-id", SNAPSHOT_ID);
    spot = or_member(spot, kept, len, b"timestamp-ms", TIMESTAMP_MS);
    spot = or_member(spot, kept, len, b"parent-snapshot-id", PARENT_SNAPSHOT_ID);
    spot = or_member(spot, kept, len, b"sequence-number", SEQUENCE_NUMBER);
    spot = or_member(spot, kept, len, b"first-row-id", FIRST_ROW_ID);
    spot = or_member(spot, kept, len, b"added-rows", ADDED_ROWS);
    spot = or_member(spot, kept, len, b"manifest-list", MANIFEST_LIST);
    spot = or_member(spot, kept, len, b"summary", SUMMARY);
    or_member(spot, kept, len, b"schema-id", SNAPSHOT_SCHEMA_ID)
}

fn schema_member(kept: &Kept, len: usize) -> usize
    ensures { result ≡ number_of 0 (names_of (spots_of ASchema)) (front len kept.now) }
{
    let mut spot = or_member(ANYTHING, kept, len, b"type", SCHEMA_TYPE);
    spot = or_member(spot, kept, len, b"fields", SCHEMA_FIELDS);
    or_member(spot, kept, len, b"schema-id", SCHEMA_ID)
}

fn field_member(kept: &Kept, len: usize) -> usize
    ensures { result ≡ number_of 0 (names_of (spots_of AField)) (front len kept.now) }
{
    let mut spot = or_member(ANYTHING, kept, len, b"id", FIELD_ID);
    spot = or_member(spot, kept, len, b"name", FIELD_NAME);
    spot = or_member(spot, kept, len, b"required", FIELD_REQUIRED);
    or_member(spot, kept, len, b"type", FIELD_TYPE)
}

fn order_member(kept: &Kept, len: usize) -> usize
    ensures { result ≡ number_of 0 (names_of (spots_of AnOrder)) (front len kept.now) }
{
    let mut spot = or_member(ANYTHING, kept, len, b"order-id", ORDER_ID);
    or_member(spot, kept, len, b"fields", ORDER_FIELDS)
}

fn sort_field_member(kept: &Kept, len: usize) -> usize
    ensures { result ≡ number_of 0 (names_of (spots_of ASortField)) (front len kept.now) }
{
    let mut spot = or_member(ANYTHING, kept, len, b"transform", SORT_TRANSFORM);
    spot = or_member(spot, kept, len, b"source-id", SORT_SOURCE_ID);
    spot = or_member(spot, kept, len, b"direction", DIRECTION);
    or_member(spot, kept, len, b"null-order", NULL_ORDER)
}

fn spec_member(kept: &Kept, len: usize) -> usize
    ensures { result ≡ number_of 0 (names_of (spots_of ASpec)) (front len kept.now) }
{
    let mut spot = or_member(ANYTHING, kept, len, b"fields", SPEC_FIELDS);
    or_member(spot, kept, len, b"spec-id", SPEC_ID)
}

fn partition_field_member(kept: &Kept, len: usize) -> usize
    ensures { result ≡ number_of 0 (names_of (spots_of APartitionField)) (front len kept.now) }
{
    let mut spot = or_member(ANYTHING, kept, len, b"source-id", PARTITION_SOURCE_ID);
    spot = or_member(spot, kept, len, b"name", PARTITION_NAME);
    spot = or_member(spot, kept, len, b"transform", PARTITION_TRANSFORM);
    or_member(spot, kept, len, b"field-id", PARTITION_FIELD_ID)
}
// The member of an object that a name is.
pub fn member_of(object: usize, kept: &Kept, len: usize) -> usize
    ensures { result ≡ member_named object (front len kept.now) }
{
    match object {
        UPDATE => update_member(kept, len),
        SNAPSHOT => snapshot_member(kept, len),
        SCHEMA => schema_member(kept, len),
        FIELD => field_member(kept, len),
        SORT_ORDER => order_member(kept, len),
        SORT_FIELD => sort_field_member(kept, len),
        SPEC => spec_member(kept, len),
        PARTITION_FIELD => partition_field_member(kept, len),
        _ => ANYTHING,
    }
}
