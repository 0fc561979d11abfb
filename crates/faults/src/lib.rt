// Which part of a run's start is at fault, where the run is refused with 1: the first in the order of the record's fields, by a number of `fault`.
// Nothing is refused: any metadata and any terms are answered, with 0 where nothing is at fault.
// Document 01 decides, as the crate `rules` writes it in Blanks and WellFormed; the order of the parts is this crate's, in Faults.
#![tactic(auto)]

ghost use Rattle.std.specs.Prelude.{◌≡◌};
ghost use Rattle.rules.specs.Words.{first_of};
ghost use Rattle.rules.specs.Layout.{read_metadata};
ghost use Rattle.faults.specs.Faults.{part_faults, agreement_faults, metadata_fault, start_fault};

use crate::part::{
    fields_fault, metadata_log_fault, orders_fault, refs_fault, schemas_fault, snapshot_log_fault,
    snapshots_fault, specs_fault, statistics_fault,
};
use crate::pick::{or_later, unless};
use formed::metadata::{main_agrees, refs_held};
use formed::slots::snapshot_keys;
use records::capacities::TEXT;
use records::metadata::TableMetadata;
use records::run::RunTerms;

pub mod fault;
mod part;
mod pick;

// Each part by itself, from the last to the first.
fn part_fault(m: TableMetadata) -> u8
    ensures { result ≡ first_of (part_faults m) }
{
    let specs = specs_fault(m.partition_specs);
    let partition = or_later(
        statistics_fault(fault::PARTITION_STATISTICS, m.partition_statistics),
        specs,
    );
    let statistics = or_later(statistics_fault(fault::STATISTICS, m.statistics), partition);
    let orders = or_later(orders_fault(m.sort_orders), statistics);
    let schemas = or_later(schemas_fault(m.schemas), orders);
    let files = or_later(metadata_log_fault(m.metadata_log), schemas);
    let log = or_later(snapshot_log_fault(m.snapshot_log), files);
    let refs = or_later(refs_fault(m.refs), log);
    let snapshots = or_later(snapshots_fault(m.snapshots), refs);
    or_later(fields_fault(m.fields), snapshots)
}

// What the parts say of each other, where each is well formed by itself.
fn agreement_fault(m: TableMetadata) -> u8
    requires { first_of (part_faults m) ≡ 0 }
    ensures { result ≡ first_of (agreement_faults (read_metadata m)) }
{
    let fields = m.fields;
    let snapshots = snapshot_keys(m.snapshots);
    let held = refs_held(m.refs, snapshots);
    let agrees = main_agrees(fields, m.refs);
    let schema = tables::schemas::holds(m.schemas, fields.current_schema_id);
    let order = tables::sort_orders::holds(m.sort_orders, fields.default_sort_order_id);
    let spec = tables::partition_specs::holds(m.partition_specs, fields.default_spec_id);
    let from_spec = unless(spec, fault::DEFAULT_SPEC_NOT_HELD, fault::NONE);
    let from_order = unless(order, fault::DEFAULT_SORT_ORDER_NOT_HELD, from_spec);
    let from_schema = unless(schema, fault::CURRENT_SCHEMA_NOT_HELD, from_order);
    let from_main = unless(agrees, fault::MAIN_DISAGREES, from_schema);
    unless(held, fault::REF_NOT_HELD, from_main)
}

pub fn metadata_fault(m: TableMetadata) -> u8
    ensures { result ≡ metadata_fault m }
{
    let own = part_fault(m);
    if own != fault::NONE {
        return own;
    }
    agreement_fault(m)
}

// What a run is refused with 1 for: its metadata, and then the current file's name.
pub fn start_fault(m: TableMetadata, terms: RunTerms) -> u8
    ensures { result ≡ start_fault m terms }
{
    let has_file = terms.has_file;
    let file = terms.file;
    let length = file.len;
    let fits = !has_file | (length <= TEXT);
    let from_file = unless(fits, fault::CURRENT_FILE_NAME, fault::NONE);
    or_later(metadata_fault(m), from_file)
}
