// The words that stand as values, and what each is in a record: an action's kind, a ref's kind, a field's type, a direction, a place for nulls.
ghost use Rattle.std.specs.Prelude.{◌≡◌, cond, ◌≤◌, eqb, length, drop};
ghost use Rattle.rules.specs.Words.{same_bytes};
ghost use Rattle.json_members.specs.Kept.{front};
ghost use Rattle.json_members.specs.Words.{number_of, number_after, action_words, ref_words, type_words, direction_words, null_words};

use crate::word::is_word;
use json_lex::text::Kept;
use records::schema::{LONG, TIMESTAMP};
use records::update::{
    ADD_PARTITION_SPEC, ADD_SCHEMA, ADD_SNAPSHOT, ADD_SORT_ORDER, ASSIGN_UUID,
    REMOVE_PARTITION_SPECS, REMOVE_REF, REMOVE_SCHEMAS, REMOVE_SNAPSHOTS, SET_CURRENT_SCHEMA,
    SET_DEFAULT_PARTITION_SPEC, SET_DEFAULT_SORT_ORDER, SET_LOCATION, SET_REF,
    UPGRADE_FORMAT_VERSION,
};

// Kept: kinds are the numbers of the records, as Words of specs/ says them.
// What is told of a text that is none of them: kinds and types count from 1, directions and places for nulls from 0.
pub const NO_KIND: u8 = 0;

pub const NO_SIDE: u8 = 2;

// The kind that was found before, or this one where the text is this word.
pub fn or_kind(found: u8, kept: &Kept, len: usize, word: &[u8], kind: u8) -> u8
    requires { length word.now ≤ 97 }
    ensures { result ≡ cond (eqb found 0) (cond (same_bytes (front len kept.now) word.now) kind 0) found }
{
    if found != NO_KIND {
        return found;
    }
    if is_word(kept, len, word) {
        return kind;
    }
    NO_KIND
}

// Actions on schemas, sort orders and partition specs.
fn later_kind(found: u8, kept: &Kept, len: usize) -> u8
    ensures { result ≡ number_after found (drop 7 action_words) (front len kept.now) }
{
    let mut kind = or_kind(found, kept, len, b"add-schema", ADD_SCHEMA);
    kind = or_kind(kind, kept, len, b"set-current-schema", SET_CURRENT_SCHEMA);
    kind = or_kind(kind, kept, len, b"remove-schemas", REMOVE_SCHEMAS);
    kind = or_kind(kind, kept, len, b"add-sort-order", ADD_SORT_ORDER);
    kind = or_kind(
        kind,
        kept,
        len,
        b"set-default-sort-order",
        SET_DEFAULT_SORT_ORDER,
    );
    kind = or_kind(kind, kept, len, b"add-spec", ADD_PARTITION_SPEC);
    kind = or_kind(
        kind,
        kept,
        len,
        b"set-default-spec",
        SET_DEFAULT_PARTITION_SPEC,
    );
    or_kind(
        kind,
        kept,
        len,
        b"remove-partition-specs",
        REMOVE_PARTITION_SPECS,
    )
}

// The kind of update that an action names.
pub fn action_kind(kept: &Kept, len: usize) -> u8
    ensures { result ≡ number_of 0 action_words (front len kept.now) }
{
    let mut kind = or_kind(NO_KIND, kept, len, b"assign-uuid", ASSIGN_UUID);
    kind = or_kind(
        kind,
        kept,
        len,
        b"upgrade-format-version",
        UPGRADE_FORMAT_VERSION,
    );
    kind = or_kind(kind, kept, len, b"set-location", SET_LOCATION);
    kind = or_kind(kind, kept, len, b"add-snapshot", ADD_SNAPSHOT);
    kind = or_kind(kind, kept, len, b"remove-snapshots", REMOVE_SNAPSHOTS);
    kind = or_kind(kind, kept, len, b"set-snapshot-ref", SET_REF);
    kind = or_kind(kind, kept, len, b"remove-snapshot-ref", REMOVE_REF);
    later_kind(kind, kept, len)
}

// 1 is a branch, 2 a tag.
pub fn ref_kind(kept: &Kept, len: usize) -> u8
    ensures { result ≡ number_of 0 ref_words (front len kept.now) }
{
    if is_word(kept, len, b"branch") {
        return 1;
    }
    if is_word(kept, len, b"tag") {
        return 2;
    }
    NO_KIND
}

pub fn field_type(kept: &Kept, len: usize) -> u8
    ensures { result ≡ number_of 0 type_words (front len kept.now) }
{
    if is_word(kept, len, b"long") {
        return LONG;
    }
    if is_word(kept, len, b"timestamp") {
        return TIMESTAMP;
    }
    NO_KIND
}

// 0 is ascending, 1 descending.
pub fn direction(kept: &Kept, len: usize) -> u8
    ensures { result ≡ number_of 2 direction_words (front len kept.now) }
{
    if is_word(kept, len, b"asc") {
        return 0;
    }
    if is_word(kept, len, b"desc") {
        return 1;
    }
    NO_SIDE
}

// 0 is first, 1 last.
pub fn null_order(kept: &Kept, len: usize) -> u8
    ensures { result ≡ number_of 2 null_words (front len kept.now) }
{
    if is_word(kept, len, b"nulls-first") {
        return 0;
    }
    if is_word(kept, len, b"nulls-last") {
        return 1;
    }
    NO_SIDE
}
