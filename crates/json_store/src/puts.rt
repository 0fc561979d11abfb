// What a right value, a closed list or a closed field leaves behind.
ghost use Rattle.std.specs.Prelude.{◌≡◌, false};
ghost use Rattle.json_members.specs.Model.{told};
ghost use Rattle.json_store.specs.Puts.{store, put_transform, put_word, put_string, put_value, last_of, ids_at, put_id, put_field, put_sort_field, put_partition_id, put_partition, put_done};

use crate::numbers::{
    BUCKETS, GIVEN_AT, Numbers, PARTITION_IDS_AT, SCHEMA_IDS_AT, SNAPSHOT_IDS_AT, SORTS_AT,
    SPEC_IDS_AT, byte_at, copy, low_at, put,
};
use crate::texts::{
    FIELD_NAME_AT, FIELDS_AT, LOCATION_AT, PARTITIONS_AT, REF_NAME_AT, Texts, copy_name, put_four,
    put_text, put_uuid,
};
use json_lex::text::Kept;
use json_members::bucket::transform_of;
use json_members::kind::{direction, field_type, null_order, ref_kind};
use json_members::spot::{
    ANYTHING, DIRECTION, FIELD, FIELD_ID, FIELD_NAME, FIELD_TYPE, LOCATION, NULL_ORDER,
    ORDER_FIELDS, PARTITION_FIELD, PARTITION_FIELD_ID, PARTITION_NAME, PARTITION_SOURCE_ID,
    PARTITION_TRANSFORM, REF_NAME, REF_TYPE, REMOVED_SCHEMA, REMOVED_SNAPSHOT, REMOVED_SPEC,
    SCHEMA, SCHEMA_FIELDS, SCHEMA_IDS, SNAPSHOT, SNAPSHOT_IDS, SORT_FIELD, SORT_ORDER,
    SORT_SOURCE_ID, SPEC, SPEC_FIELDS, SPEC_IDS, UPDATE, UPDATES, UUID,
};
use json_members::state::{ITEMS, Judge, is_seen};
use records::capacities::{
    FIELD_BYTES, NAME, PARTITION_BYTES, PARTITION_FIELDS, REMOVALS, SORT_FIELDS, TEXT,
};

// ---- values

#[tactic(auto, unfolding(crate::specs::Puts::put_transform))]
fn put_transform(numbers: &mut Numbers, kept: &Kept, len: usize)
    ensures { numbers.new ≡ put_transform kept.now len numbers.old }
{
    let t = transform_of(kept, len);
    put(numbers, PARTITION_TRANSFORM, false, t.kind as u64);
    put(numbers, BUCKETS, false, t.buckets as u64);
}

// A word, as the number that a record has for it.
#[tactic(auto, unfolding(crate::specs::Puts::put_word))]
fn put_word(numbers: &mut Numbers, spot: usize, kept: &Kept, len: usize)
    ensures { numbers.new ≡ put_word spot kept.now len numbers.old }
{
    match spot {
        REF_TYPE => put(numbers, spot, false, ref_kind(kept, len) as u64),
        FIELD_TYPE => put(numbers, spot, false, field_type(kept, len) as u64),
        DIRECTION => put(numbers, spot, false, direction(kept, len) as u64),
        NULL_ORDER => put(numbers, spot, false, null_order(kept, len) as u64),
        PARTITION_TRANSFORM => put_transform(numbers, kept, len),
        _ => {}
    }
}

// A text at its spot.
#[tactic(auto, unfolding(crate::specs::Puts::put_string))]
fn put_string(numbers: &mut Numbers, texts: &mut Texts, spot: usize, kept: &Kept, len: usize)
    ensures { store numbers.new texts.new ≡ put_string spot kept.now len (store numbers.old texts.old) }
{
    match spot {
        UUID => put_uuid(texts, kept),
        LOCATION => put_text(texts, LOCATION_AT, TEXT, kept, len),
        REF_NAME => put_text(texts, REF_NAME_AT, NAME, kept, len),
        FIELD_NAME | PARTITION_NAME => put_text(texts, FIELD_NAME_AT, NAME, kept, len),
        _ => put_word(numbers, spot, kept, len),
    }
}

// A right value at its spot.
#[tactic(auto, unfolding(crate::specs::Puts::put_value))]
fn put_value(
    numbers: &mut Numbers,
    texts: &mut Texts,
    spot: usize,
    kept: &Kept,
    head: u8,
    len: usize,
    magnitude: u64,
)
    ensures { store numbers.new texts.new ≡ put_value spot kept.now head len magnitude (store numbers.old texts.old) }
{
    if head == b'"' {
        put_string(numbers, texts, spot, kept, len);
    } else {
        put(numbers, spot, head == b'-', magnitude);
    }
}

// ---- elements and fields

// The place of the last of so many.
#[tactic(auto, unfolding(crate::specs::Puts::last_of))]
fn last_of(count: usize) -> usize
    ensures { result ≡ last_of count }
{
    count.saturating_sub(1)
}

// Where the elements of a list of ids stand, by the spot of an element.
#[tactic(auto, unfolding(crate::specs::Puts::ids_at))]
fn ids_at(item: usize) -> usize
    ensures { result ≡ ids_at item }
{
    match item {
        REMOVED_SNAPSHOT => SNAPSHOT_IDS_AT,
        REMOVED_SCHEMA => SCHEMA_IDS_AT,
        _ => SPEC_IDS_AT,
    }
}

fn put_id(numbers: &mut Numbers, item: usize, i: usize, negative: bool, magnitude: u64)
    ensures { numbers.new ≡ put_id item i negative magnitude numbers.old }
{
    put(numbers, ids_at(item) + i % REMOVALS, negative, magnitude);
}

// A field of a schema, in the bytes in which it is offered: its id, its type, its name.
fn put_field(numbers: &Numbers, texts: &mut Texts, i: usize)
    ensures { store numbers.now texts.new ≡ put_field i (store numbers.now texts.old) }
{
    let at = FIELDS_AT + i % records::capacities::SCHEMA_FIELDS * FIELD_BYTES;
    put_four(texts, at, low_at(numbers, FIELD_ID));
    texts[at + 4] = byte_at(numbers, FIELD_TYPE);
    copy_name(texts, at + 5);
}

// Its source, its direction, its place for nulls.
#[tactic(auto, unfolding(crate::specs::Puts::put_sort_field))]
fn put_sort_field(numbers: &mut Numbers, i: usize)
    ensures { numbers.new ≡ put_sort_field i numbers.old }
{
    let at = SORTS_AT + i % SORT_FIELDS * 3;
    copy(numbers, SORT_SOURCE_ID, at);
    copy(numbers, DIRECTION, at + 1);
    copy(numbers, NULL_ORDER, at + 2);
}

// The id of a partition field, and whether it is given.
#[tactic(auto, unfolding(crate::specs::Puts::put_partition_id))]
fn put_partition_id(numbers: &mut Numbers, given: bool, i: usize)
    ensures { numbers.new ≡ put_partition_id given i numbers.old }
{
    let place = i % PARTITION_FIELDS;
    copy(numbers, PARTITION_FIELD_ID, PARTITION_IDS_AT + place);
    put(numbers, GIVEN_AT + place, false, given as u64);
}

// A field of a partition spec: its source, its transform, the number of its buckets, its name; and its id.
fn put_partition(numbers: &mut Numbers, texts: &mut Texts, given: bool, i: usize)
    ensures { store numbers.new texts.new ≡ put_partition given i (store numbers.old texts.old) }
{
    let at = PARTITIONS_AT + i % PARTITION_FIELDS * PARTITION_BYTES;
    put_four(texts, at, low_at(numbers, PARTITION_SOURCE_ID));
    texts[at + 4] = byte_at(numbers, PARTITION_TRANSFORM);
    put_four(texts, at + 5, low_at(numbers, BUCKETS));
    copy_name(texts, at + 9);
    put_partition_id(numbers, given, i);
}

// ---- what is done: a right value, or a list or an object that was closed, by its spot

#[tactic(auto, unfolding(crate::specs::Puts::is_silent, crate::specs::Puts::put_done_in))]
pub fn put_done(
    done: usize,
    kept: &Kept,
    head: u8,
    len: usize,
    magnitude: u64,
    judge: &Judge,
    numbers: &mut Numbers,
    texts: &mut Texts,
)
    ensures { store numbers.new texts.new ≡ put_done done (told kept.now head 0 len false magnitude) judge.now (store numbers.old texts.old) }
{
    let items = judge[ITEMS];
    match done {
        ANYTHING | UPDATES | UPDATE | SNAPSHOT | SCHEMA | SORT_ORDER | SPEC => {}
        SNAPSHOT_IDS | SCHEMA_IDS | SPEC_IDS | SCHEMA_FIELDS | ORDER_FIELDS | SPEC_FIELDS => {
            put(numbers, done, false, items as u64)
        }
        REMOVED_SNAPSHOT | REMOVED_SCHEMA | REMOVED_SPEC => {
            put_id(numbers, done, last_of(items), head == b'-', magnitude)
        }
        FIELD => put_field(numbers, texts, last_of(items)),
        SORT_FIELD => put_sort_field(numbers, last_of(items)),
        PARTITION_FIELD => put_partition(
            numbers,
            texts,
            is_seen(judge, PARTITION_FIELD_ID),
            last_of(items),
        ),
        _ => put_value(numbers, texts, done, kept, head, len, magnitude),
    }
}
