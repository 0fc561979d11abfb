// Well-formed updates: in each part a record is tidy where the kind uses it and blank where it does not, and what the kind uses keeps its bounds.
// Whether what an update offers is well formed is asked where it is added, by its bytes.
ghost use Rattle.std.specs.Prelude.{◌≡◌};
ghost use Rattle.rules.specs.WellFormed.{update_formed};
ghost use Rattle.rules.specs.Kinds.{is_tidy_fields_part, is_tidy_snapshots_part, is_tidy_refs_part, is_tidy_schemas_part, is_tidy_sort_orders_part, is_tidy_statistics_part, is_tidy_partition_specs_part, is_tidy_update, read_kind, read_update};

use crate::blanks::{
    name_fits, order_fits, reference_fits, schema_ids_fit, schema_offer_is_blank, snapshot_fits,
    snapshot_ids_fit, spec_ids_fit, spec_offer_fits, statistics_file_fits, text_fits, zeros_from,
};
use crate::bounds::{
    order_choice_formed, schema_choice_formed, schema_id_formed, snapshot_id_formed,
    spec_choice_formed,
};
use crate::record::{
    offered_ids_formed, offered_order_formed, reference_formed, schema_ids_formed, snapshot_formed,
    snapshot_ids_formed, spec_ids_formed, statistics_file_formed,
};
use records::capacities::{NAME, TEXT};
use records::counters::{SchemaId, SnapshotId, SortOrderId, SpecId};
use records::part::{
    FieldsPart, PartitionSpecsPart, RefsPart, SchemasPart, SnapshotsPart, SortOrdersPart,
    StatisticsPart,
};
use records::update::{
    ADD_PARTITION_SPEC, ADD_SCHEMA, ADD_SNAPSHOT, ADD_SORT_ORDER, ASSIGN_UUID,
    REMOVE_PARTITION_SPECS, REMOVE_PARTITION_STATISTICS, REMOVE_REF, REMOVE_SCHEMAS,
    REMOVE_SNAPSHOTS, REMOVE_STATISTICS, SET_BRANCH_SNAPSHOT, SET_CURRENT_SCHEMA,
    SET_DEFAULT_PARTITION_SPEC, SET_DEFAULT_SORT_ORDER, SET_LOCATION, SET_PARTITION_STATISTICS,
    SET_REF, SET_STATISTICS, TableUpdate, UPGRADE_FORMAT_VERSION,
};

// ---- the parts

fn fields_fit(k: u8, p: FieldsPart) -> bool
    ensures { result ≡ is_tidy_fields_part k p }
{
    ((k == ASSIGN_UUID) | zeros_from(&p.uuid, 0))
        & ((k == UPGRADE_FORMAT_VERSION) | (p.format_version == 0))
        & text_fits(k == SET_LOCATION, p.location)
}

fn snapshots_fit(k: u8, p: SnapshotsPart) -> bool
    ensures { result ≡ is_tidy_snapshots_part k p }
{
    snapshot_fits((k == ADD_SNAPSHOT) | (k == SET_BRANCH_SNAPSHOT), p.added)
        & snapshot_ids_fit(k == REMOVE_SNAPSHOTS, p.removed)
}

fn refs_fit(k: u8, p: RefsPart) -> bool
    ensures { result ≡ is_tidy_refs_part k p }
{
    name_fits(
        (k == SET_BRANCH_SNAPSHOT) | ((k == SET_REF) | (k == REMOVE_REF)),
        p.name,
    ) & reference_fits(k == SET_REF, p.reference)
}

fn schemas_fit(k: u8, p: SchemasPart) -> bool
    ensures { result ≡ is_tidy_schemas_part k p }
{
    ((k == ADD_SCHEMA) | schema_offer_is_blank(p.added))
        & ((k == SET_CURRENT_SCHEMA) | (p.chosen == SchemaId(0)))
        & schema_ids_fit(k == REMOVE_SCHEMAS, p.removed)
}

fn sort_orders_fit(k: u8, p: SortOrdersPart) -> bool
    ensures { result ≡ is_tidy_sort_orders_part k p }
{
    order_fits(k == ADD_SORT_ORDER, p.added)
        & ((k == SET_DEFAULT_SORT_ORDER) | (p.chosen == SortOrderId(0)))
}

fn statistics_fit(k: u8, p: StatisticsPart) -> bool
    ensures { result ≡ is_tidy_statistics_part k p }
{
    statistics_file_fits(
        (k == SET_STATISTICS) | (k == SET_PARTITION_STATISTICS),
        p.file,
    ) & ((k == REMOVE_STATISTICS)
        | (k == REMOVE_PARTITION_STATISTICS)
        | (p.removed == SnapshotId(0)))
}

fn partition_specs_fit(k: u8, p: PartitionSpecsPart) -> bool
    ensures { result ≡ is_tidy_partition_specs_part k p }
{
    spec_offer_fits(k == ADD_PARTITION_SPEC, p.added)
        & ((k == SET_DEFAULT_PARTITION_SPEC) | (p.chosen == SpecId(0)))
        & spec_ids_fit(k == REMOVE_PARTITION_SPECS, p.removed)
}

// ---- the update

pub fn is_tidy(u: TableUpdate) -> bool
    ensures { result ≡ is_tidy_update u }
{
    let k = u.kind;
    fields_fit(k, u.fields)
        & snapshots_fit(k, u.snapshots)
        & refs_fit(k, u.refs)
        & schemas_fit(k, u.schemas)
        & sort_orders_fit(k, u.sort_orders)
        & statistics_fit(k, u.statistics)
        & partition_specs_fit(k, u.partition_specs)
}

// The numbers and lengths that the kind uses keep their bounds.
fn used_formed(u: TableUpdate) -> bool
    ensures { result ≡ update_formed (read_kind u) }
{
    let k = u.kind;
    let version = u.fields.format_version;
    let location = u.fields.location.len;
    let name = u.refs.name.len;
    match k {
        ASSIGN_UUID => true,
        UPGRADE_FORMAT_VERSION => (1 <= version) & (version <= 3),
        SET_LOCATION => location <= TEXT,
        ADD_SNAPSHOT => snapshot_formed(u.snapshots.added),
        SET_BRANCH_SNAPSHOT => (name <= NAME) & snapshot_formed(u.snapshots.added),
        REMOVE_SNAPSHOTS => snapshot_ids_formed(u.snapshots.removed),
        SET_REF => (name <= NAME) & reference_formed(u.refs.reference),
        REMOVE_REF => name <= NAME,
        ADD_SCHEMA => schema_id_formed(u.schemas.added.schema_id),
        SET_CURRENT_SCHEMA => schema_choice_formed(u.schemas.chosen),
        REMOVE_SCHEMAS => schema_ids_formed(u.schemas.removed),
        ADD_SORT_ORDER => offered_order_formed(u.sort_orders.added),
        SET_DEFAULT_SORT_ORDER => order_choice_formed(u.sort_orders.chosen),
        SET_STATISTICS | SET_PARTITION_STATISTICS => statistics_file_formed(u.statistics.file),
        REMOVE_STATISTICS | REMOVE_PARTITION_STATISTICS => {
            snapshot_id_formed(u.statistics.removed)
        }
        ADD_PARTITION_SPEC => offered_ids_formed(u.partition_specs.added),
        SET_DEFAULT_PARTITION_SPEC => spec_choice_formed(u.partition_specs.chosen),
        REMOVE_PARTITION_SPECS => spec_ids_formed(u.partition_specs.removed),
        _ => false,
    }
}

pub fn is_formed(u: TableUpdate) -> bool
    ensures { result ≡ update_formed (read_update u) }
{
    is_tidy(u) & used_formed(u)
}
