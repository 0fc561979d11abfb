// An update as the card of what its kind uses, and of what it offers. That of an unknown kind is the kind.
use crate::card::{Card, text_of, wide};
use crate::offer::{schema_offer, spec_offer};
use crate::record::{
    chosen, location, name_text, reference, schema_ids, snapshot, snapshot_ids, sort_order,
    spec_ids, statistics_file,
};
use records::capacities::UPDATES;
use records::part::FieldsPart;
use records::update::{
    ADD_PARTITION_SPEC, ADD_SCHEMA, ADD_SNAPSHOT, ADD_SORT_ORDER, ASSIGN_UUID,
    REMOVE_PARTITION_SPECS, REMOVE_PARTITION_STATISTICS, REMOVE_REF, REMOVE_SCHEMAS,
    REMOVE_SNAPSHOTS, REMOVE_STATISTICS, SET_BRANCH_SNAPSHOT, SET_CURRENT_SCHEMA,
    SET_DEFAULT_PARTITION_SPEC, SET_DEFAULT_SORT_ORDER, SET_LOCATION, SET_PARTITION_STATISTICS,
    SET_REF, SET_STATISTICS, TableUpdate, UPGRADE_FORMAT_VERSION, UpdateList,
};
use slot_bounds::with_slots;

// The kind by which the case format has an added schema with the names and types of its fields. It is the update `ADD_SCHEMA`.
pub const ADD_NAMED_SCHEMA: u8 = 21;

// uuid
fn uuid(p: FieldsPart) -> Card {
    let bytes = p.uuid;
    Card::of_number(0).with_text(text_of(&bytes, 16))
}

// Kinds 1 to 6.
fn early(u: TableUpdate) -> Card {
    let kind = u.kind;
    match kind {
        ASSIGN_UUID => uuid(u.fields),
        UPGRADE_FORMAT_VERSION => Card::of_number(u.fields.format_version as i64),
        SET_LOCATION => Card::of_number(0).with_text(location(u.fields.location)),
        ADD_SNAPSHOT => snapshot(u.snapshots.added),
        SET_BRANCH_SNAPSHOT => snapshot(u.snapshots.added).with_text(name_text(u.refs.name)),
        REMOVE_SNAPSHOTS => Card::of_number(0).with_list(snapshot_ids(u.snapshots.removed)),
        _ => Card::of_number(kind as i64),
    }
}

// Kinds 7 to 20.
fn late(u: TableUpdate, offers: &[u8]) -> Card {
    let kind = u.kind;
    match kind {
        SET_REF => reference(u.refs.reference).with_text(name_text(u.refs.name)),
        REMOVE_REF => Card::of_number(0).with_text(name_text(u.refs.name)),
        ADD_SCHEMA => schema_offer(u.schemas.added, offers),
        SET_CURRENT_SCHEMA => chosen(wide(u.schemas.chosen.0)),
        REMOVE_SCHEMAS => Card::of_number(0).with_list(schema_ids(u.schemas.removed)),
        ADD_SORT_ORDER => sort_order(u.sort_orders.added),
        SET_DEFAULT_SORT_ORDER => chosen(u.sort_orders.chosen.0),
        SET_STATISTICS | SET_PARTITION_STATISTICS => statistics_file(u.statistics.file),
        REMOVE_STATISTICS | REMOVE_PARTITION_STATISTICS => Card::of_number(u.statistics.removed.0),
        ADD_PARTITION_SPEC => spec_offer(u.partition_specs.added, offers),
        SET_DEFAULT_PARTITION_SPEC => chosen(wide(u.partition_specs.chosen.0)),
        REMOVE_PARTITION_SPECS => Card::of_number(0).with_list(spec_ids(u.partition_specs.removed)),
        _ => Card::of_number(kind as i64),
    }
}

pub fn update(u: TableUpdate, offers: &[u8]) -> Card {
    let card = if u.kind < SET_REF {
        early(u)
    } else {
        late(u, offers)
    };
    card.with_kind(u.kind)
}

// Past the slots it is that of the last.
pub fn update_at(list: UpdateList, i: usize, offers: &[u8]) -> Card {
    let at = with_slots(i, UPDATES - 1);
    let u = list.items[at];
    update(u, offers)
}
