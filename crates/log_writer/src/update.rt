// Each kind of update as an object: its action, and the members beside it.
ghost use Rattle.rules.specs.Layout.{read_name, read_text, read_snapshot, read_snapshot_ids, read_reference, read_schema_offer, read_schema_ids, read_sort_order, read_spec_offer, read_spec_ids};
ghost use Rattle.rules.specs.Register.Update.{AssignUuid, UpgradeFormatVersion, SetLocation, AddSnapshot, RemoveSnapshots, SetRef, RemoveRef, AddSchema, SetCurrentSchema, RemoveSchemas, AddSortOrder, SetDefaultSortOrder, AddPartitionSpec, SetDefaultPartitionSpec, RemovePartitionSpecs};
ghost use Rattle.log_rule.specs.LogText.{plain_text, update_text};
ghost use Rattle.file_text.specs.Puts.{Puts};

use crate::ids::{put_schema_ids, put_snapshot_ids, put_spec_ids};
use crate::spec::put_spec;
use file_tables::number::{of_age, of_min, of_order, of_schema, of_snapshot, of_spec};
use file_tables::record::put_snapshot;
use file_tables::table::{put_order, put_schema};
use file_text::bytes::{put, put_either};
use file_text::numbers::{put_natural, put_number};
use file_text::texts::{put_name, put_text, put_uuid};
use records::counters::{SchemaId, SortOrderId, SpecId};
use records::part::FieldsPart;
use records::partition::{SpecIds, SpecOffer};
use records::reference::SnapshotReference;
use records::schema::{SchemaIds, SchemaOffer};
use records::snapshot::{Snapshot, SnapshotIds};
use records::sort_order::SortOrder;
use records::text::{Name, Text};

// The kind of a ref that is a branch.
const BRANCH: u8 = 1;

// A snapshot has all that it has in a file of this version.
const NEWEST: u8 = 3;

pub fn put_assign_uuid(buffer: &mut [u8], at: usize, p: FieldsPart) -> usize
    ensures { Puts buffer.old at (plain_text (AssignUuid p.uuid)) result buffer.new }
{
    let at = put_uuid(
        buffer,
        at,
        b"{\"action\":\"assign-uuid\",\"uuid\":",
        &p.uuid,
    );
    put(buffer, at, b"}")
}

pub fn put_upgrade(buffer: &mut [u8], at: usize, version: u8) -> usize
    ensures { Puts buffer.old at (plain_text (UpgradeFormatVersion version)) result buffer.new }
{
    let at = put_natural(
        buffer,
        at,
        true,
        b"{\"action\":\"upgrade-format-version\",\"format-version\":",
        version as u64,
    );
    put(buffer, at, b"}")
}

pub fn put_set_location(buffer: &mut [u8], at: usize, location: Text) -> usize
    ensures { Puts buffer.old at (plain_text (SetLocation (read_text location))) result buffer.new }
{
    let at = put_text(
        buffer,
        at,
        b"{\"action\":\"set-location\",\"location\":",
        location,
    );
    put(buffer, at, b"}")
}

pub fn put_add_snapshot(buffer: &mut [u8], at: usize, s: Snapshot) -> usize
    ensures { Puts buffer.old at (plain_text (AddSnapshot (read_snapshot s))) result buffer.new }
{
    let at = put(buffer, at, b"{\"action\":\"add-snapshot\",\"snapshot\":");
    let at = put_snapshot(buffer, at, NEWEST, s);
    put(buffer, at, b"}")
}

pub fn put_remove_snapshots(buffer: &mut [u8], at: usize, ids: SnapshotIds) -> usize
    ensures { Puts buffer.old at (plain_text (RemoveSnapshots (read_snapshot_ids ids))) result buffer.new }
{
    let at = put(
        buffer,
        at,
        b"{\"action\":\"remove-snapshots\",\"snapshot-ids\":[",
    );
    let at = put_snapshot_ids(buffer, at, ids);
    put(buffer, at, b"]}")
}

pub fn put_set_ref(buffer: &mut [u8], at: usize, name: Name, f: SnapshotReference) -> usize
    ensures { Puts buffer.old at (plain_text (SetRef (read_name name) (read_reference f))) result buffer.new }
{
    let at = put_name(
        buffer,
        at,
        b"{\"action\":\"set-snapshot-ref\",\"ref-name\":",
        name,
    );
    let at = put_either(
        buffer,
        at,
        f.kind == BRANCH,
        b",\"type\":\"branch\"",
        b",\"type\":\"tag\"",
    );
    let at = put_number(
        buffer,
        at,
        true,
        b",\"snapshot-id\":",
        of_snapshot(f.snapshot_id),
    );
    let at = put_number(
        buffer,
        at,
        f.has_min,
        b",\"min-snapshots-to-keep\":",
        of_min(f.min_snapshots_to_keep),
    );
    let at = put_number(
        buffer,
        at,
        f.has_age,
        b",\"max-snapshot-age-ms\":",
        of_age(f.max_snapshot_age_ms),
    );
    let at = put_number(
        buffer,
        at,
        f.has_ref_age,
        b",\"max-ref-age-ms\":",
        of_age(f.max_ref_age_ms),
    );
    put(buffer, at, b"}")
}

pub fn put_remove_ref(buffer: &mut [u8], at: usize, name: Name) -> usize
    ensures { Puts buffer.old at (plain_text (RemoveRef (read_name name))) result buffer.new }
{
    let at = put_name(
        buffer,
        at,
        b"{\"action\":\"remove-snapshot-ref\",\"ref-name\":",
        name,
    );
    put(buffer, at, b"}")
}

// Nothing, where the offer is not well formed.
pub fn put_add_schema(buffer: &mut [u8], at: usize, o: SchemaOffer, offers: &[u8]) -> usize
    ensures { Puts buffer.old at (update_text offers.now (AddSchema (read_schema_offer o))) result buffer.new }
{
    let offered = offers::schema(o, offers);
    if offered.formed {
        let at = put(buffer, at, b"{\"action\":\"add-schema\",\"schema\":");
        let at = put_schema(buffer, at, offered.schema);
        return put(buffer, at, b"}");
    }
    at
}

pub fn put_set_current_schema(buffer: &mut [u8], at: usize, id: SchemaId) -> usize
    ensures { Puts buffer.old at (plain_text (SetCurrentSchema id.0)) result buffer.new }
{
    let at = put_number(
        buffer,
        at,
        true,
        b"{\"action\":\"set-current-schema\",\"schema-id\":",
        of_schema(id),
    );
    put(buffer, at, b"}")
}

pub fn put_remove_schemas(buffer: &mut [u8], at: usize, ids: SchemaIds) -> usize
    ensures { Puts buffer.old at (plain_text (RemoveSchemas (read_schema_ids ids))) result buffer.new }
{
    let at = put(
        buffer,
        at,
        b"{\"action\":\"remove-schemas\",\"schema-ids\":[",
    );
    let at = put_schema_ids(buffer, at, ids);
    put(buffer, at, b"]}")
}

pub fn put_add_order(buffer: &mut [u8], at: usize, o: SortOrder) -> usize
    ensures { Puts buffer.old at (plain_text (AddSortOrder (read_sort_order o))) result buffer.new }
{
    let at = put(
        buffer,
        at,
        b"{\"action\":\"add-sort-order\",\"sort-order\":",
    );
    let at = put_order(buffer, at, o);
    put(buffer, at, b"}")
}

pub fn put_set_default_order(buffer: &mut [u8], at: usize, id: SortOrderId) -> usize
    ensures { Puts buffer.old at (plain_text (SetDefaultSortOrder id.0)) result buffer.new }
{
    let at = put_number(
        buffer,
        at,
        true,
        b"{\"action\":\"set-default-sort-order\",\"sort-order-id\":",
        of_order(id),
    );
    put(buffer, at, b"}")
}

// Nothing, where the offer is not well formed.
pub fn put_add_spec(buffer: &mut [u8], at: usize, o: SpecOffer, offers: &[u8]) -> usize
    ensures { Puts buffer.old at (update_text offers.now (AddPartitionSpec (read_spec_offer o))) result buffer.new }
{
    let offered = offers::spec(o, offers);
    if offered.formed {
        let at = put(buffer, at, b"{\"action\":\"add-spec\",\"spec\":");
        let at = put_spec(buffer, at, offered.spec);
        return put(buffer, at, b"}");
    }
    at
}

pub fn put_set_default_spec(buffer: &mut [u8], at: usize, id: SpecId) -> usize
    ensures { Puts buffer.old at (plain_text (SetDefaultPartitionSpec id.0)) result buffer.new }
{
    let at = put_number(
        buffer,
        at,
        true,
        b"{\"action\":\"set-default-spec\",\"spec-id\":",
        of_spec(id),
    );
    put(buffer, at, b"}")
}

pub fn put_remove_specs(buffer: &mut [u8], at: usize, ids: SpecIds) -> usize
    ensures { Puts buffer.old at (plain_text (RemovePartitionSpecs (read_spec_ids ids))) result buffer.new }
{
    let at = put(
        buffer,
        at,
        b"{\"action\":\"remove-partition-specs\",\"spec-ids\":[",
    );
    let at = put_spec_ids(buffer, at, ids);
    put(buffer, at, b"]}")
}
