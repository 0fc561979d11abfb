// Updates: a kind, then what that kind uses. Nothing follows an unknown kind.
use crate::offer::{place_of, read_schema_offer, read_spec_offer};
use crate::partition::read_spec_ids;
use crate::reference::read_reference;
use crate::schema::read_schema_ids;
use crate::snapshot::{read_snapshot, read_snapshot_ids};
use crate::sort_order::read_sort_order;
use crate::statistics::read_statistics_file;
use crate::text::{read_name, read_text, read_uuid};
use cards::update::ADD_NAMED_SCHEMA;
use records::capacities::UPDATES;
use records::counters::{SchemaId, SnapshotId, SortOrderId, SpecId};
use records::part::{
    FieldsPart, PartitionSpecsPart, RefsPart, SchemasPart, SnapshotsPart, SortOrdersPart,
    StatisticsPart,
};
use records::update::{
    ADD_PARTITION_SPEC, ADD_SCHEMA, ADD_SNAPSHOT, ADD_SORT_ORDER, ASSIGN_UUID,
    REMOVE_PARTITION_SPECS, REMOVE_PARTITION_STATISTICS, REMOVE_REF, REMOVE_SCHEMAS,
    REMOVE_SNAPSHOTS, REMOVE_STATISTICS, SET_BRANCH_SNAPSHOT, SET_CURRENT_SCHEMA,
    SET_DEFAULT_PARTITION_SPEC, SET_DEFAULT_SORT_ORDER, SET_LOCATION, SET_PARTITION_STATISTICS,
    SET_REF, SET_STATISTICS, TableUpdate, UPGRADE_FORMAT_VERSION, UpdateList,
};
use tokens::field::{read_count, read_i32, read_i64, read_u8};
use tokens::input::Input;

fn read_fields_part(kind: u8, input: &mut Input) -> FieldsPart {
    let mut part = FieldsPart::blank();
    match kind {
        ASSIGN_UUID => {
            let uuid = read_uuid(input);
            part.uuid = uuid;
        }
        UPGRADE_FORMAT_VERSION => part.format_version = read_u8(input),
        SET_LOCATION => part.location = read_text(input),
        _ => {}
    }
    part
}

fn read_refs_part(kind: u8, input: &mut Input) -> RefsPart {
    let mut part = RefsPart::blank();
    match kind {
        SET_BRANCH_SNAPSHOT | REMOVE_REF => part.name = read_name(input),
        SET_REF => {
            part.name = read_name(input);
            part.reference = read_reference(input);
        }
        _ => {}
    }
    part
}

fn read_snapshots_part(kind: u8, input: &mut Input) -> SnapshotsPart {
    let mut part = SnapshotsPart::blank();
    match kind {
        ADD_SNAPSHOT | SET_BRANCH_SNAPSHOT => part.added = read_snapshot(input),
        REMOVE_SNAPSHOTS => part.removed = read_snapshot_ids(input),
        _ => {}
    }
    part
}

// What an update offers is put among the offers, from a place of its own on.
fn read_schemas_part(kind: u8, input: &mut Input, offers: &mut [u8], at: usize) -> SchemasPart {
    let mut part = SchemasPart::blank();
    match kind {
        ADD_SCHEMA => part.added = read_schema_offer(false, input, offers, at),
        ADD_NAMED_SCHEMA => part.added = read_schema_offer(true, input, offers, at),
        SET_CURRENT_SCHEMA => {
            let id = SchemaId(read_i32(input));
            part.chosen = id;
        }
        REMOVE_SCHEMAS => part.removed = read_schema_ids(input),
        _ => {}
    }
    part
}

fn read_sort_orders_part(kind: u8, input: &mut Input) -> SortOrdersPart {
    let mut part = SortOrdersPart::blank();
    match kind {
        ADD_SORT_ORDER => part.added = read_sort_order(input),
        SET_DEFAULT_SORT_ORDER => {
            let id = SortOrderId(read_i64(input));
            part.chosen = id;
        }
        _ => {}
    }
    part
}

fn read_statistics_part(kind: u8, input: &mut Input) -> StatisticsPart {
    let mut part = StatisticsPart::blank();
    match kind {
        SET_STATISTICS | SET_PARTITION_STATISTICS => {
            part.file = read_statistics_file(input);
        }
        REMOVE_STATISTICS | REMOVE_PARTITION_STATISTICS => {
            let id = SnapshotId(read_i64(input));
            part.removed = id;
        }
        _ => {}
    }
    part
}

fn read_specs_part(
    kind: u8,
    input: &mut Input,
    offers: &mut [u8],
    at: usize,
) -> PartitionSpecsPart {
    let mut part = PartitionSpecsPart::blank();
    match kind {
        ADD_PARTITION_SPEC => part.added = read_spec_offer(input, offers, at),
        SET_DEFAULT_PARTITION_SPEC => {
            let id = SpecId(read_i32(input));
            part.chosen = id;
        }
        REMOVE_PARTITION_SPECS => part.removed = read_spec_ids(input),
        _ => {}
    }
    part
}

// A schema is added by either of two kinds, which are one update.
fn kind_of(kind: u8) -> u8 {
    if kind == ADD_NAMED_SCHEMA {
        return ADD_SCHEMA;
    }
    kind
}

// Each part reads what its kinds have. The one kind that has two, a branch commit, has the name before the snapshot.
fn read_update(input: &mut Input, offers: &mut [u8], at: usize) -> TableUpdate {
    let kind = read_u8(input);
    let mut u = TableUpdate::blank();
    u.kind = kind_of(kind);
    u.fields = read_fields_part(kind, input);
    u.refs = read_refs_part(kind, input);
    u.snapshots = read_snapshots_part(kind, input);
    u.schemas = read_schemas_part(kind, input, offers, at);
    u.sort_orders = read_sort_orders_part(kind, input);
    u.statistics = read_statistics_part(kind, input);
    u.partition_specs = read_specs_part(kind, input, offers, at);
    u
}

pub fn read_updates(input: &mut Input, offers: &mut [u8]) -> UpdateList {
    let mut list = UpdateList::blank();
    let count = read_count(input);
    for i in 0..count {
        if !input.is_good() {
            break;
        }
        let update = read_update(input, offers, place_of(i));
        if i < UPDATES {
            list.items[i] = update;
        }
    }
    list.count = count;
    list
}
