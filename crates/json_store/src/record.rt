// The records of an update, of what is held.
ghost use Rattle.std.specs.Prelude.{◌≡◌, ◌+◌, cond, ◌<◌, ◌≤◌, leb, length, get_or};
ghost use Rattle.std.proofs.lemmas.List.Edits.{sets};
ghost use Rattle.rules.specs.Layout.{laid_text, laid_name, laid_snapshot, laid_snapshot_ids, laid_reference, laid_schema_offer, laid_schema_ids, laid_sort_field, laid_sort_order, laid_offered_id, laid_spec_offer, laid_spec_ids};
ghost use Rattle.json_members.specs.Slots.{seen_in};
ghost use Rattle.json_store.specs.Places.{uuid_at, location_at, ref_name_at};
ghost use Rattle.json_store.specs.Numbers.{magnitude_at};
ghost use Rattle.json_store.specs.Puts.{part};
ghost use Rattle.json_store.specs.Made.{text_in, or_zero_at, or_zero_narrow_at, snapshot_in, snapshot_ids_in, reference_in, schema_offer_in, schema_ids_in, sort_field_in, sort_order_in, partition_id_in, spec_offer_in, spec_ids_in};

use crate::numbers::{
    GIVEN_AT, Narrow, Numbers, PARTITION_IDS_AT, SCHEMA_IDS_AT, SNAPSHOT_IDS_AT, SORTS_AT,
    SPEC_IDS_AT, Whole, byte_at, count_at, magnitude_at, narrow_at, number_at,
};
use crate::texts::{LOCATION_AT, REF_NAME_AT, Texts, UUID_AT};
use json_members::spot::{
    ADDED_ROWS, FIRST_ROW_ID, MAX_REF_AGE_MS, MAX_SNAPSHOT_AGE_MS, MIN_SNAPSHOTS_TO_KEEP,
    ORDER_FIELDS, ORDER_ID, PARENT_SNAPSHOT_ID, REF_SNAPSHOT_ID, REF_TYPE, SCHEMA_FIELDS,
    SCHEMA_ID, SCHEMA_IDS, SEQUENCE_NUMBER, SNAPSHOT_ID, SNAPSHOT_IDS, SPEC_FIELDS, SPEC_ID,
    SPEC_IDS, TIMESTAMP_MS,
};
use json_members::state::{Judge, is_seen};
use records::capacities;
use records::capacities::{PARTITION_FIELDS, REMOVALS, SORT_FIELDS};
use records::counters::{
    Age, FieldId, MinSnapshots, RowId, SchemaId, SequenceNumber, SnapshotId, SortOrderId, SpecId,
    Time,
};
use records::partition::{OfferedId, SpecIds, SpecOffer};
use records::reference::SnapshotReference;
use records::schema::{SchemaIds, SchemaOffer};
use records::snapshot::{Snapshot, SnapshotIds};
use records::sort_order::{SortField, SortOrder};
use records::text::{Name, Text};

// ---- texts

pub fn uuid(texts: &Texts) -> [u8; 16]
    ensures { result ≡ part uuid_at 16 texts.now }
{
    let mut bytes = [0u8; 16];
    bytes.copy_from_slice(&texts[UUID_AT..UUID_AT + 16]);
    bytes
}

// The bytes of a text, at most as many as there is room for, and how many they are: its length stands in front of them.
fn copy_text(texts: &Texts, at: usize, bytes: &mut [u8]) -> usize
    requires { at + 1 + length bytes.old ≤ 1731 }
    ensures len { result ≡ cond (leb (get_or texts.now at 0) (length bytes.old)) (get_or texts.now at 0) (length bytes.old) }
    ensures after { bytes.new ≡ sets bytes.old 0 (part (at + 1) result texts.now) }
{
    let len = usize::from(texts[at]).min(bytes.len());
    bytes[..len].copy_from_slice(&texts[at + 1..at + 1 + len]);
    len
}

pub fn location(texts: &Texts) -> Text
    ensures { result ≡ laid_text (text_in 96 location_at texts.now) }
{
    let mut text = Text::blank();
    text.len = copy_text(texts, LOCATION_AT, &mut text.bytes);
    text
}

pub fn name(texts: &Texts) -> Name
    ensures { result ≡ laid_name (text_in 32 ref_name_at texts.now) }
{
    let mut name = Name::blank();
    name.len = copy_text(texts, REF_NAME_AT, &mut name.bytes);
    name
}

// ---- members that may be left out

fn or_zero(numbers: &Numbers, judge: &Judge, spot: usize) -> Whole
    ensures { result.0 ≡ or_zero_at judge.now numbers.now spot }
{
    if is_seen(judge, spot) {
        return number_at(numbers, spot);
    }
    Whole(0)
}

fn or_zero_narrow(numbers: &Numbers, judge: &Judge, spot: usize) -> Narrow
    ensures { result.0 ≡ or_zero_narrow_at judge.now numbers.now spot }
{
    if is_seen(judge, spot) {
        return narrow_at(numbers, spot);
    }
    Narrow(0)
}

// A number of a row range; 0 where there is none.
fn row_number(numbers: &Numbers, judge: &Judge, spot: usize) -> u64
    ensures { result ≡ cond (seen_in judge.now 31) (magnitude_at numbers.now spot) 0 }
{
    if is_seen(judge, FIRST_ROW_ID) {
        return magnitude_at(numbers, spot);
    }
    0
}

// ---- snapshots and refs

#[tactic(auto, unfolding(rules::specs::Layout::laid_snapshot, crate::specs::Made::snapshot_in))]
pub fn snapshot(numbers: &Numbers, judge: &Judge) -> Snapshot
    ensures { result ≡ laid_snapshot (snapshot_in judge.now numbers.now) }
{
    Snapshot {
        snapshot_id: SnapshotId(number_at(numbers, SNAPSHOT_ID).0),
        has_parent: is_seen(judge, PARENT_SNAPSHOT_ID),
        parent_snapshot_id: SnapshotId(or_zero(numbers, judge, PARENT_SNAPSHOT_ID).0),
        sequence_number: SequenceNumber(or_zero(numbers, judge, SEQUENCE_NUMBER).0),
        timestamp_ms: Time(number_at(numbers, TIMESTAMP_MS).0),
        has_rows: is_seen(judge, FIRST_ROW_ID),
        first_row_id: RowId(row_number(numbers, judge, FIRST_ROW_ID)),
        added_rows: row_number(numbers, judge, ADDED_ROWS),
    }
}

#[tactic(auto, unfolding(rules::specs::Layout::laid_reference, crate::specs::Made::reference_in))]
pub fn reference(numbers: &Numbers, judge: &Judge) -> SnapshotReference
    ensures { result ≡ laid_reference (reference_in judge.now numbers.now) }
{
    SnapshotReference {
        snapshot_id: SnapshotId(number_at(numbers, REF_SNAPSHOT_ID).0),
        kind: byte_at(numbers, REF_TYPE),
        has_min: is_seen(judge, MIN_SNAPSHOTS_TO_KEEP),
        min_snapshots_to_keep: MinSnapshots(
            or_zero_narrow(numbers, judge, MIN_SNAPSHOTS_TO_KEEP).0,
        ),
        has_age: is_seen(judge, MAX_SNAPSHOT_AGE_MS),
        max_snapshot_age_ms: Age(or_zero(numbers, judge, MAX_SNAPSHOT_AGE_MS).0),
        has_ref_age: is_seen(judge, MAX_REF_AGE_MS),
        max_ref_age_ms: Age(or_zero(numbers, judge, MAX_REF_AGE_MS).0),
    }
}

// ---- lists of ids

pub fn snapshot_ids(numbers: &Numbers) -> SnapshotIds
    ensures { result ≡ laid_snapshot_ids (snapshot_ids_in numbers.now) }
{
    let count = count_at(numbers, SNAPSHOT_IDS, REMOVALS);
    let mut ids = SnapshotIds::blank();
    for i in 0..count {
        ids.items[i] = SnapshotId(number_at(numbers, SNAPSHOT_IDS_AT + i).0);
    }
    ids.count = count;
    ids
}

pub fn schema_ids(numbers: &Numbers) -> SchemaIds
    ensures { result ≡ laid_schema_ids (schema_ids_in numbers.now) }
{
    let count = count_at(numbers, SCHEMA_IDS, REMOVALS);
    let mut ids = SchemaIds::blank();
    for i in 0..count {
        ids.items[i] = SchemaId(narrow_at(numbers, SCHEMA_IDS_AT + i).0);
    }
    ids.count = count;
    ids
}

pub fn spec_ids(numbers: &Numbers) -> SpecIds
    ensures { result ≡ laid_spec_ids (spec_ids_in numbers.now) }
{
    let count = count_at(numbers, SPEC_IDS, REMOVALS);
    let mut ids = SpecIds::blank();
    for i in 0..count {
        ids.items[i] = SpecId(narrow_at(numbers, SPEC_IDS_AT + i).0);
    }
    ids.count = count;
    ids
}

// ---- schemas, sort orders and partition specs

#[tactic(auto, unfolding(rules::specs::Layout::laid_schema_offer, crate::specs::Made::schema_offer_in))]
pub fn schema_offer(numbers: &Numbers, judge: &Judge, place: usize) -> SchemaOffer
    ensures { result ≡ laid_schema_offer (schema_offer_in judge.now numbers.now place) }
{
    SchemaOffer {
        schema_id: SchemaId(or_zero_narrow(numbers, judge, SCHEMA_ID).0),
        at: place,
        count: count_at(numbers, SCHEMA_FIELDS, capacities::SCHEMA_FIELDS),
    }
}

#[tactic(auto, unfolding(rules::specs::Layout::laid_sort_field, crate::specs::Made::sort_field_in))]
fn sort_field(numbers: &Numbers, i: usize) -> SortField
    requires { i < 8 }
    ensures { result ≡ laid_sort_field (sort_field_in numbers.now i) }
{
    let at = SORTS_AT + i * 3;
    SortField {
        source_id: FieldId(narrow_at(numbers, at).0),
        direction: byte_at(numbers, at + 1),
        null_order: byte_at(numbers, at + 2),
    }
}

pub fn sort_order(numbers: &Numbers) -> SortOrder
    ensures { result ≡ laid_sort_order (sort_order_in numbers.now) }
{
    let count = count_at(numbers, ORDER_FIELDS, SORT_FIELDS);
    let mut order = SortOrder::blank();
    for i in 0..count {
        order.items[i] = sort_field(numbers, i);
    }
    order.order_id = SortOrderId(number_at(numbers, ORDER_ID).0);
    order.count = count;
    order
}

// The id of a partition field, if it is given.
#[tactic(auto, unfolding(rules::specs::Layout::laid_offered_id, crate::specs::Made::partition_id_in))]
fn offered_id(numbers: &Numbers, i: usize) -> OfferedId
    requires { i < 8 }
    ensures { result ≡ laid_offered_id (partition_id_in numbers.now i) }
{
    if magnitude_at(numbers, GIVEN_AT + i) != 1 {
        return OfferedId::blank();
    }
    OfferedId {
        given: true,
        id: FieldId(narrow_at(numbers, PARTITION_IDS_AT + i).0),
    }
}

pub fn spec_offer(numbers: &Numbers, judge: &Judge, place: usize) -> SpecOffer
    ensures { result ≡ laid_spec_offer (spec_offer_in judge.now numbers.now place) }
{
    let count = count_at(numbers, SPEC_FIELDS, PARTITION_FIELDS);
    let mut offer = SpecOffer::blank();
    for i in 0..count {
        offer.ids[i] = offered_id(numbers, i);
    }
    offer.spec_id = SpecId(or_zero_narrow(numbers, judge, SPEC_ID).0);
    offer.at = place;
    offer.count = count;
    offer
}
