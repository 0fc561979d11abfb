// The updates of a log, each by its kind, with commas between them.
ghost use Rattle.rules.specs.Kinds.{read_kind, read_update, read_updates};
ghost use Rattle.log_rule.specs.LogText.{update_text, log_text};
ghost use Rattle.file_text.specs.Puts.{Puts};

use crate::update::{
    put_add_order, put_add_schema, put_add_snapshot, put_add_spec, put_assign_uuid, put_remove_ref,
    put_remove_schemas, put_remove_snapshots, put_remove_specs, put_set_current_schema,
    put_set_default_order, put_set_default_spec, put_set_location, put_set_ref, put_upgrade,
};
use file_text::bytes::put;
use file_text::list::put_items;
use formed::update::is_tidy;
use records::update::{
    ADD_PARTITION_SPEC, ADD_SCHEMA, ADD_SNAPSHOT, ADD_SORT_ORDER, ASSIGN_UUID,
    REMOVE_PARTITION_SPECS, REMOVE_REF, REMOVE_SCHEMAS, REMOVE_SNAPSHOTS, SET_CURRENT_SCHEMA,
    SET_DEFAULT_PARTITION_SPEC, SET_DEFAULT_SORT_ORDER, SET_LOCATION, SET_REF, TableUpdate,
    UPGRADE_FORMAT_VERSION, UpdateList,
};

// Nothing, where the kind has no action.
fn put_kind(buffer: &mut [u8], at: usize, u: TableUpdate, offers: &[u8]) -> usize
    ensures { Puts buffer.old at (update_text offers.now (read_kind u)) result buffer.new }
{
    match u.kind {
        ASSIGN_UUID => put_assign_uuid(buffer, at, u.fields),
        UPGRADE_FORMAT_VERSION => put_upgrade(buffer, at, u.fields.format_version),
        SET_LOCATION => put_set_location(buffer, at, u.fields.location),
        ADD_SNAPSHOT => put_add_snapshot(buffer, at, u.snapshots.added),
        REMOVE_SNAPSHOTS => put_remove_snapshots(buffer, at, u.snapshots.removed),
        SET_REF => put_set_ref(buffer, at, u.refs.name, u.refs.reference),
        REMOVE_REF => put_remove_ref(buffer, at, u.refs.name),
        ADD_SCHEMA => put_add_schema(buffer, at, u.schemas.added, offers),
        SET_CURRENT_SCHEMA => put_set_current_schema(buffer, at, u.schemas.chosen),
        REMOVE_SCHEMAS => put_remove_schemas(buffer, at, u.schemas.removed),
        ADD_SORT_ORDER => put_add_order(buffer, at, u.sort_orders.added),
        SET_DEFAULT_SORT_ORDER => put_set_default_order(buffer, at, u.sort_orders.chosen),
        ADD_PARTITION_SPEC => put_add_spec(buffer, at, u.partition_specs.added, offers),
        SET_DEFAULT_PARTITION_SPEC => put_set_default_spec(buffer, at, u.partition_specs.chosen),
        REMOVE_PARTITION_SPECS => put_remove_specs(buffer, at, u.partition_specs.removed),
        _ => at,
    }
}

fn put_update(buffer: &mut [u8], at: usize, u: TableUpdate, offers: &[u8]) -> usize
    ensures { Puts buffer.old at (update_text offers.now (read_update u)) result buffer.new }
{
    if is_tidy(u) {
        return put_kind(buffer, at, u, offers);
    }
    at
}

pub fn put_log(buffer: &mut [u8], t: UpdateList, offers: &[u8]) -> usize
    ensures { Puts buffer.old 0 (log_text (read_updates t) offers.now) result buffer.new }
{
    let at = put(buffer, 0, b"[");
    let at = put_items(
        buffer,
        at,
        &t.items,
        t.count,
        TableUpdate::blank(),
        |buffer, at, u| { put_update(buffer, at, u, offers) },
    );
    put(buffer, at, b"]")
}
