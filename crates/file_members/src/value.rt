// What is wrong with a value that is no list and no object: 0 where nothing is.
ghost use Rattle.std.specs.Prelude.{◌≡◌};
ghost use Rattle.file_members.specs.Faults.{number_like_at, like_at, version_fault, is_null_at, like_fault, fault_in};

use crate::spot::{
    ADDED_ROWS, CURRENT_SCHEMA_ID, CURRENT_SNAPSHOT_ID, DEFAULT_SORT_ORDER_ID, DEFAULT_SPEC_ID,
    DIRECTION, FIELD_ID, FIELD_NAME, FIELD_REQUIRED, FIELD_TYPE, FILE_TIMESTAMP_MS, FIRST_ROW_ID,
    FORMAT_VERSION, LAST_COLUMN_ID, LAST_PARTITION_ID, LAST_SEQUENCE_NUMBER, LAST_UPDATED_MS,
    LOCATION, LOG_SNAPSHOT_ID, LOG_TIMESTAMP_MS, MAX_REF_AGE_MS, MAX_SNAPSHOT_AGE_MS,
    METADATA_FILE, MIN_SNAPSHOTS_TO_KEEP, NEXT_ROW_ID, NOTHING, NULL_ORDER, ORDER_ID,
    PARENT_SNAPSHOT_ID, PARTITION_FIELD_ID, PARTITION_FILE_PATH, PARTITION_FILE_SIZE,
    PARTITION_FILE_SNAPSHOT_ID, PARTITION_NAME, PARTITION_SOURCE_ID, PARTITION_TRANSFORM,
    REF_SNAPSHOT_ID, REF_TYPE, SCHEMA_ID, SCHEMA_TYPE, SEQUENCE_NUMBER, SNAPSHOT_ID,
    SORT_SOURCE_ID, SORT_TRANSFORM, SPEC_ID, STATISTICS_PATH, STATISTICS_SIZE,
    STATISTICS_SNAPSHOT_ID, TABLE_UUID, TIMESTAMP_MS,
};
use crate::want::passes_over;
use json_lex::byte::is_digit;
use json_lex::text::Kept;
use json_members::refusal::NOT_PUBLISHED;

// Kept: a number, as refusals are in `fault_in` of specs/Faults.antt.
const RIGHT: usize = 0;

// A number: of 64 bits, of 32, or of 64 without a sign.
fn number_like(want: usize) -> usize
    ensures { result ≡ number_like_at want }
{
    match want {
        LAST_SEQUENCE_NUMBER
        | CURRENT_SNAPSHOT_ID
        | DEFAULT_SORT_ORDER_ID
        | SNAPSHOT_ID
        | SEQUENCE_NUMBER
        | ORDER_ID
        | REF_SNAPSHOT_ID
        | MAX_SNAPSHOT_AGE_MS
        | LOG_SNAPSHOT_ID
        | FILE_TIMESTAMP_MS
        | STATISTICS_SIZE
        | PARTITION_FILE_SNAPSHOT_ID
        | PARTITION_FILE_SIZE => json_members::spot::SNAPSHOT_ID,
        LAST_UPDATED_MS
        | PARENT_SNAPSHOT_ID
        | TIMESTAMP_MS
        | MAX_REF_AGE_MS
        | LOG_TIMESTAMP_MS
        | STATISTICS_SNAPSHOT_ID => json_members::spot::SNAPSHOT_ID,
        LAST_COLUMN_ID
        | CURRENT_SCHEMA_ID
        | DEFAULT_SPEC_ID
        | SCHEMA_ID
        | SPEC_ID
        | PARTITION_SOURCE_ID
        | SORT_SOURCE_ID
        | MIN_SNAPSHOTS_TO_KEEP => json_members::spot::LAST_COLUMN_ID,
        LAST_PARTITION_ID | FIELD_ID | PARTITION_FIELD_ID => json_members::spot::LAST_COLUMN_ID,
        NEXT_ROW_ID | FIRST_ROW_ID => json_members::spot::FIRST_ROW_ID,
        ADDED_ROWS => json_members::spot::FIRST_ROW_ID,
        _ => NOTHING,
    }
}

// The spot of a list of updates that has the same shape; 0 where there is none.
fn like_of(want: usize) -> usize
    ensures { result ≡ like_at want }
{
    match want {
        LOCATION | METADATA_FILE | STATISTICS_PATH | PARTITION_FILE_PATH =>
            json_members::spot::LOCATION,
        FIELD_NAME | PARTITION_NAME => json_members::spot::FIELD_NAME,
        TABLE_UUID => json_members::spot::UUID,
        REF_TYPE => json_members::spot::REF_TYPE,
        SCHEMA_TYPE => json_members::spot::SCHEMA_TYPE,
        FIELD_REQUIRED => json_members::spot::FIELD_REQUIRED,
        FIELD_TYPE => json_members::spot::FIELD_TYPE,
        PARTITION_TRANSFORM => json_members::spot::PARTITION_TRANSFORM,
        SORT_TRANSFORM => json_members::spot::SORT_TRANSFORM,
        DIRECTION => json_members::spot::DIRECTION,
        NULL_ORDER => json_members::spot::NULL_ORDER,
        _ => number_like(want),
    }
}

// A version is a whole number from 1 to 3.
fn version_fault(head: u8, integer: bool, magnitude: u64) -> usize
    ensures { result ≡ version_fault head integer magnitude }
{
    if !is_digit(head) {
        return NOT_PUBLISHED;
    }
    if !integer {
        return NOT_PUBLISHED;
    }
    if magnitude < 1 {
        return NOT_PUBLISHED;
    }
    if magnitude > 3 {
        return NOT_PUBLISHED;
    }
    RIGHT
}

// No snapshot may be current: then `null` stands there.
fn is_null_at(want: usize, head: u8) -> bool
    ensures { result ≡ is_null_at want head }
{
    if want != CURRENT_SNAPSHOT_ID {
        return false;
    }
    head == b'n'
}

// By the spot; a text, a number or a word is no list and no record.
fn like_fault(
    spot: usize,
    kept: &Kept,
    head: u8,
    len: usize,
    integer: bool,
    magnitude: u64,
) -> usize
    ensures { result ≡ like_fault spot kept.now head len integer magnitude }
{
    if spot == NOTHING {
        return NOT_PUBLISHED;
    }
    json_members::value::fault_of(spot, kept, head, len, integer, magnitude)
}

// What is wrong with a whole text, number or word.
pub fn fault_of(
    want: usize,
    kept: &Kept,
    head: u8,
    len: usize,
    integer: bool,
    magnitude: u64,
) -> usize
    ensures { result ≡ fault_in want kept.now head len integer magnitude }
{
    if passes_over(want) {
        return RIGHT;
    }
    if want == FORMAT_VERSION {
        return version_fault(head, integer, magnitude);
    }
    if is_null_at(want, head) {
        return RIGHT;
    }
    like_fault(like_of(want), kept, head, len, integer, magnitude)
}
