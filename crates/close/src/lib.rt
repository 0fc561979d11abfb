// The close of a run: what becomes of the snapshot log and of the metadata log, and the checks 31, 32 and 20 to 23.
// Document 01 decides, and of the default spec document 02, request (ix), as the crate `rules` writes it in Close.
#![tactic(auto)]

ghost use Rattle.std.specs.Prelude.{◌≡◌, true, List, ltb, length};
ghost use Rattle.rules.specs.Capacities.{metadata_log_room};
ghost use Rattle.rules.specs.Words.{any, eq_z, first_of};
ghost use Rattle.rules.specs.Register.{Metadata, Update, Terms};
ghost use Rattle.rules.specs.WellFormed.{has_order, has_spec};
ghost use Rattle.rules.specs.Layout.{read_fields, read_snapshot_log, read_sort_orders, read_partition_specs};
ghost use Rattle.rules.specs.Close.{is_default_unfit, staying, close_checks};
ghost use Rattle.tables.specs.Laid.{LaidSnapshotLog, LaidRefs, LaidSchema, LaidOrders, LaidSpecs};
ghost use Rattle.builder.specs.Pieces.{IsCurrent};
ghost use Rattle.close.specs.Answers.{HistoryOf, Handed, ends_off};

use history::History;
use partitions::columns::{is_clashing, is_misfit};
use records::counters::SnapshotId;
use records::metadata::SingleFields;
use records::partition::PartitionSpecs;
use records::reference::Refs;
use records::replies::{
    ACCEPTED, DEFAULT_ORDER_UNFIT, LOG_ENDS_ELSEWHERE, MAIN_DISAGREES, NAME_CLASH, SOURCE_MISFIT,
    TOO_MANY_FILES,
};
use records::schema::Schema;
use records::sort_order::SortOrders;

pub mod files;
pub mod history;

// The default order names a field that is not in the current schema.
fn is_default_unfit(f: SingleFields, s: Schema, orders: SortOrders) -> bool
    requires laid_schema { LaidSchema s }
    requires laid_orders { LaidOrders orders }
    requires orders_value { any (has_order f.default_sort_order_id.0) (read_sort_orders orders) ≡ true }
    ensures { (p : Metadata) → read_fields f ≡ p.fields → IsCurrent p s → read_sort_orders orders ≡ p.orders → result ≡ is_default_unfit p }
{
    let o = tables::sort_orders::get(orders, f.default_sort_order_id);
    tables::sort_orders::is_unfit(o, s)
}

fn is_same(id: SnapshotId, other: SnapshotId) -> bool
    ensures { result ≡ eq_z id.0 other.0 }
{
    id == other
}

// The log was rebuilt and does not end at the current snapshot.
fn ends_elsewhere(h: History, f: SingleFields) -> bool
    requires { LaidSnapshotLog h.log }
    ensures { result ≡ ends_off h.rebuilt (read_snapshot_log h.log) (read_fields f).current }
{
    let rebuilt = h.rebuilt;
    let log = h.log;
    let n = log.count;
    let set = f.has_current;
    let current = f.current_snapshot_id;
    if !rebuilt {
        return false;
    }
    if !set {
        return false;
    }
    if n == 0 {
        return true;
    }
    let e = log.items[n - 1];
    let id = e.snapshot_id;
    !is_same(id, current)
}

// 31, 32, 20, 21, 22 or 23, the first that fails; 0 where none does. The schema is the current one, and 31 and 32 are of the default spec. 23 is that more
// files would stay than the metadata log has room for.
pub fn close_number(
    h: History,
    f: SingleFields,
    refs: Refs,
    schema: Schema,
    orders: SortOrders,
    specs: PartitionSpecs,
    overfull: bool,
) -> u8
    requires laid_snapshot_log { LaidSnapshotLog h.log }
    requires laid_refs { LaidRefs refs }
    requires laid_schema { LaidSchema schema }
    requires laid_orders { LaidOrders orders }
    requires orders_value { any (has_order f.default_sort_order_id.0) (read_sort_orders orders) ≡ true }
    requires laid_specs { LaidSpecs specs }
    requires specs_value { any (has_spec f.default_spec_id.0) (read_partition_specs specs) ≡ true }
    ensures { (t : Terms) (l : List Update) (p : Metadata) → HistoryOf l p h → Handed p f refs schema orders specs → overfull ≡ ltb metadata_log_room (length (staying t p)) → result ≡ first_of (close_checks t l p) }
{
    let spec = tables::partition_specs::get(specs, f.default_spec_id);
    if is_clashing(spec, schema) {
        return NAME_CLASH;
    }
    if is_misfit(spec, schema) {
        return SOURCE_MISFIT;
    }
    if is_default_unfit(f, schema, orders) {
        return DEFAULT_ORDER_UNFIT;
    }
    if ends_elsewhere(h, f) {
        return LOG_ENDS_ELSEWHERE;
    }
    if !formed::metadata::main_agrees(f, refs) {
        return MAIN_DISAGREES;
    }
    if overfull {
        return TOO_MANY_FILES;
    }
    ACCEPTED
}
