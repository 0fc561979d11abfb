// The update of a kind, of what is held: its parts, each of the kinds that use it.
ghost use Rattle.std.specs.Prelude.{◌≡◌};
ghost use Rattle.json_store.specs.Made.{update_made};
ghost use Rattle.json_store.specs.Parts.{made_kind, fields_part_in, snapshots_part_in, refs_part_in, schemas_part_in, sort_orders_part_in, specs_part_in};

use crate::numbers::{Numbers, byte_at, narrow_at, number_at};
use crate::record::{
    location, name, reference, schema_ids, schema_offer, snapshot, snapshot_ids, sort_order,
    spec_ids, spec_offer, uuid,
};
use crate::texts::Texts;
use json_members::spot::{CHOSEN_ORDER_ID, CHOSEN_SCHEMA_ID, CHOSEN_SPEC_ID, FORMAT_VERSION};
use json_members::state::{Judge, kind_of};
use records::counters::{SchemaId, SortOrderId, SpecId};
use records::part::{
    FieldsPart, PartitionSpecsPart, RefsPart, SchemasPart, SnapshotsPart, SortOrdersPart,
    StatisticsPart,
};
use records::update::{
    ADD_PARTITION_SPEC, ADD_SCHEMA, ADD_SNAPSHOT, ADD_SORT_ORDER, ASSIGN_UUID,
    REMOVE_PARTITION_SPECS, REMOVE_PARTITION_STATISTICS, REMOVE_REF, REMOVE_SCHEMAS,
    REMOVE_SNAPSHOTS, SET_BRANCH_SNAPSHOT, SET_CURRENT_SCHEMA, SET_DEFAULT_PARTITION_SPEC,
    SET_DEFAULT_SORT_ORDER, SET_LOCATION, SET_REF, SET_STATISTICS, TableUpdate,
    UPGRADE_FORMAT_VERSION,
};

// The kinds of which an update is made; 0 where there is none.
fn made_kind(kind: u8) -> u8
    ensures { result ≡ made_kind kind }
{
    if kind > REMOVE_PARTITION_SPECS {
        return 0;
    }
    if kind == SET_BRANCH_SNAPSHOT {
        return 0;
    }
    if kind < SET_STATISTICS {
        return kind;
    }
    if kind > REMOVE_PARTITION_STATISTICS {
        return kind;
    }
    0
}

#[tactic(auto, unfolding(crate::specs::Parts::fields_part_in))]
fn fields_part(kind: u8, numbers: &Numbers, texts: &Texts) -> FieldsPart
    ensures { result ≡ fields_part_in kind numbers.now texts.now }
{
    match kind {
        ASSIGN_UUID => FieldsPart {
            uuid: uuid(texts),
            ..FieldsPart::blank()
        },
        UPGRADE_FORMAT_VERSION => FieldsPart {
            format_version: byte_at(numbers, FORMAT_VERSION),
            ..FieldsPart::blank()
        },
        SET_LOCATION => FieldsPart {
            location: location(texts),
            ..FieldsPart::blank()
        },
        _ => FieldsPart::blank(),
    }
}

#[tactic(auto, unfolding(crate::specs::Parts::snapshots_part_in))]
fn snapshots_part(kind: u8, judge: &Judge, numbers: &Numbers) -> SnapshotsPart
    ensures { result ≡ snapshots_part_in kind judge.now numbers.now }
{
    match kind {
        ADD_SNAPSHOT => SnapshotsPart {
            added: snapshot(numbers, judge),
            ..SnapshotsPart::blank()
        },
        REMOVE_SNAPSHOTS => SnapshotsPart {
            removed: snapshot_ids(numbers),
            ..SnapshotsPart::blank()
        },
        _ => SnapshotsPart::blank(),
    }
}

#[tactic(auto, unfolding(crate::specs::Parts::refs_part_in))]
fn refs_part(kind: u8, judge: &Judge, numbers: &Numbers, texts: &Texts) -> RefsPart
    ensures { result ≡ refs_part_in kind judge.now numbers.now texts.now }
{
    match kind {
        SET_REF => RefsPart {
            name: name(texts),
            reference: reference(numbers, judge),
        },
        REMOVE_REF => RefsPart {
            name: name(texts),
            ..RefsPart::blank()
        },
        _ => RefsPart::blank(),
    }
}

#[tactic(auto, unfolding(crate::specs::Parts::schemas_part_in))]
fn schemas_part(kind: u8, place: usize, judge: &Judge, numbers: &Numbers) -> SchemasPart
    ensures { result ≡ schemas_part_in kind place judge.now numbers.now }
{
    match kind {
        ADD_SCHEMA => SchemasPart {
            added: schema_offer(numbers, judge, place),
            ..SchemasPart::blank()
        },
        SET_CURRENT_SCHEMA => SchemasPart {
            chosen: SchemaId(narrow_at(numbers, CHOSEN_SCHEMA_ID).0),
            ..SchemasPart::blank()
        },
        REMOVE_SCHEMAS => SchemasPart {
            removed: schema_ids(numbers),
            ..SchemasPart::blank()
        },
        _ => SchemasPart::blank(),
    }
}

#[tactic(auto, unfolding(crate::specs::Parts::sort_orders_part_in))]
fn sort_orders_part(kind: u8, numbers: &Numbers) -> SortOrdersPart
    ensures { result ≡ sort_orders_part_in kind numbers.now }
{
    match kind {
        ADD_SORT_ORDER => SortOrdersPart {
            added: sort_order(numbers),
            ..SortOrdersPart::blank()
        },
        SET_DEFAULT_SORT_ORDER => SortOrdersPart {
            chosen: SortOrderId(number_at(numbers, CHOSEN_ORDER_ID).0),
            ..SortOrdersPart::blank()
        },
        _ => SortOrdersPart::blank(),
    }
}

#[tactic(auto, unfolding(crate::specs::Parts::specs_part_in))]
fn specs_part(kind: u8, place: usize, judge: &Judge, numbers: &Numbers) -> PartitionSpecsPart
    ensures { result ≡ specs_part_in kind place judge.now numbers.now }
{
    match kind {
        ADD_PARTITION_SPEC => PartitionSpecsPart {
            added: spec_offer(numbers, judge, place),
            ..PartitionSpecsPart::blank()
        },
        SET_DEFAULT_PARTITION_SPEC => PartitionSpecsPart {
            chosen: SpecId(narrow_at(numbers, CHOSEN_SPEC_ID).0),
            ..PartitionSpecsPart::blank()
        },
        REMOVE_PARTITION_SPECS => PartitionSpecsPart {
            removed: spec_ids(numbers),
            ..PartitionSpecsPart::blank()
        },
        _ => PartitionSpecsPart::blank(),
    }
}

// The update that is closed, whose offer begins at a place.
pub fn update_of(place: usize, judge: &Judge, numbers: &Numbers, texts: &Texts) -> TableUpdate
    ensures { result ≡ update_made place judge.now numbers.now texts.now }
{
    let kind = kind_of(judge);
    let made = made_kind(kind);
    let fields = fields_part(kind, numbers, texts);
    let snapshots = snapshots_part(kind, judge, numbers);
    let refs = refs_part(kind, judge, numbers, texts);
    let schemas = schemas_part(kind, place, judge, numbers);
    let sort_orders = sort_orders_part(kind, numbers);
    let statistics = StatisticsPart::blank();
    let partition_specs = specs_part(kind, place, judge, numbers);
    TableUpdate {
        kind: made,
        fields,
        snapshots,
        refs,
        schemas,
        sort_orders,
        statistics,
        partition_specs,
    }
}
