// Well-formed metadata: its tables and single fields by themselves, and what they say of each other.
ghost use Rattle.std.specs.Prelude.{◌≡◌, ◌&&◌, ◌≤◌, take};
ghost use Rattle.rules.specs.Words.{eq_z, same_option, all, is_in};
ghost use Rattle.rules.specs.Capacities.{snapshot_room};
ghost use Rattle.rules.specs.WellFormed.{refs_formed, fields_formed, main_snapshot, metadata_formed};
ghost use Rattle.rules.specs.Blanks.{is_tidy_refs, is_tidy_fields, is_tidy_metadata};
ghost use Rattle.rules.specs.Layout.{read_refs, read_fields, read_metadata};
ghost use Rattle.tables.specs.Laid.{LaidRefs};

use crate::blanks::text_fits;
use crate::bounds::{last_partition_formed, sequence_formed};
use crate::order::{Keys, holds, refs_ascend};
use crate::slots::{
    metadata_log_formed, order_keys, refs_filled, schema_keys, snapshot_keys, snapshot_log_formed,
    spec_keys, statistics_keys,
};
use records::capacities::TEXT;
use records::counters::SnapshotId;
use records::metadata::{SingleFields, TableMetadata};
use records::reference::Refs;
use search::is_in;
use tables::keys::{order_key, schema_key, snapshot_key, spec_key};
use tables::names::is_main_name;

pub fn refs_formed(t: Refs) -> bool
    ensures { result ≡ (is_tidy_refs t && refs_formed (read_refs t)) }
{
    if refs_filled(t) {
        return refs_ascend(t);
    }
    false
}

fn fields_formed(f: SingleFields) -> bool
    ensures { result ≡ (is_tidy_fields f && fields_formed (read_fields f)) }
{
    (text_fits(true, f.location) & (f.has_current | (f.current_snapshot_id == SnapshotId(0))))
        & ((1 <= f.format_version)
            & (f.format_version <= 3)
            & (f.location.len <= TEXT)
            & sequence_formed(f.last_sequence_number)
            & last_partition_formed(f.last_partition_id))
}

// Each ref names a snapshot that is among the keys.
pub fn refs_held(t: Refs, k: Keys) -> bool
    requires laid_refs { LaidRefs t }
    requires count_le_snapshot_room { k.count ≤ snapshot_room }
    ensures { result ≡ all (λ x. is_in (take k.count k.ids) x.reference.snapshot) (read_refs t) }
{
    for x in &t.items[..t.count] {
        if !is_in(&k.ids[..k.count], snapshot_key(x.reference.snapshot_id)) {
            return false;
        }
    }
    true
}

// A current snapshot is set exactly if there is a ref `main`, and `main` names it.
pub fn main_agrees(f: SingleFields, t: Refs) -> bool
    requires { LaidRefs t }
    ensures { result ≡ same_option eq_z (read_fields f).current (main_snapshot (read_refs t)) }
{
    for r in &t.items[..t.count] {
        if is_main_name(r.name) {
            return f.has_current & (f.current_snapshot_id == r.reference.snapshot_id);
        }
    }
    !f.has_current
}

// Each part is a local first: handed over straight from the metadata, it would be copied with all of it.
pub fn is_formed(m: TableMetadata) -> bool
    ensures { result ≡ (is_tidy_metadata m && metadata_formed (read_metadata m)) }
{
    let fields = m.fields;
    let refs = m.refs;
    let log = m.snapshot_log;
    let files = m.metadata_log;
    let snapshots = m.snapshots;
    let schemas = m.schemas;
    let orders = m.sort_orders;
    let statistics = m.statistics;
    let partition_statistics = m.partition_statistics;
    let specs = m.partition_specs;
    let snapshot_ids = snapshot_keys(snapshots);
    let schema_ids = schema_keys(schemas);
    let order_ids = order_keys(orders);
    let statistics_ids = statistics_keys(statistics);
    let partition_ids = statistics_keys(partition_statistics);
    let spec_ids = spec_keys(specs);
    let ok = snapshot_ids.formed
        & refs_formed(refs)
        & snapshot_log_formed(log)
        & metadata_log_formed(files)
        & schema_ids.formed
        & order_ids.formed
        & statistics_ids.formed
        & partition_ids.formed
        & spec_ids.formed
        & fields_formed(fields);
    if ok {
        return refs_held(refs, snapshot_ids)
            & main_agrees(fields, refs)
            & holds(schema_ids, schema_key(fields.current_schema_id))
            & holds(order_ids, order_key(fields.default_sort_order_id))
            & holds(spec_ids, spec_key(fields.default_spec_id));
    }
    false
}
