// The comparison of two metadata: whether they are equal, slot for slot, and if not where they differ first.
// Nothing is refused: any two metadata are compared, also those that are not well formed.
// The parts are compared in the order of the case format's metadata; a table differs at its first record that does, and else by its count.
#![tactic(auto)]

ghost use Rattle.std.specs.Prelude.{◌≡◌};
ghost use Rattle.compare.specs.Parts.{first_difference};

use crate::difference::{Difference, unless};
use crate::fields::compare_fields;
use crate::table::compare_tables;
use records::metadata::TableMetadata;

pub mod difference;
mod fields;
pub mod part;
mod table;

// From the last part to the first: each comparison is given what the later ones found.
pub fn first_difference(a: TableMetadata, b: TableMetadata) -> Difference
    ensures { result ≡ first_difference a b }
{
    let last_partition = a.fields.last_partition_id == b.fields.last_partition_id;
    let spec = a.fields.default_spec_id == b.fields.default_spec_id;
    let order = a.fields.default_sort_order_id == b.fields.default_sort_order_id;
    let schema = a.fields.current_schema_id == b.fields.current_schema_id;
    let none = Difference { part: 0, place: 0 };
    let from_last_partition = unless(last_partition, part::LAST_PARTITION_ID, 0, none);
    let from_spec = unless(spec, part::DEFAULT_SPEC, 0, from_last_partition);
    let from_specs = compare_tables(
        &a.partition_specs.items,
        &b.partition_specs.items,
        a.partition_specs.count,
        b.partition_specs.count,
        part::PARTITION_SPECS,
        from_spec,
    );
    let from_partition = compare_tables(
        &a.partition_statistics.items,
        &b.partition_statistics.items,
        a.partition_statistics.count,
        b.partition_statistics.count,
        part::PARTITION_STATISTICS,
        from_specs,
    );
    let from_statistics = compare_tables(
        &a.statistics.items,
        &b.statistics.items,
        a.statistics.count,
        b.statistics.count,
        part::STATISTICS,
        from_partition,
    );
    let from_order = unless(order, part::DEFAULT_SORT_ORDER, 0, from_statistics);
    let from_orders = compare_tables(
        &a.sort_orders.items,
        &b.sort_orders.items,
        a.sort_orders.count,
        b.sort_orders.count,
        part::SORT_ORDERS,
        from_order,
    );
    let from_schema = unless(schema, part::CURRENT_SCHEMA, 0, from_orders);
    let from_schemas = compare_tables(
        &a.schemas.items,
        &b.schemas.items,
        a.schemas.count,
        b.schemas.count,
        part::SCHEMAS,
        from_schema,
    );
    let from_files = compare_tables(
        &a.metadata_log.items,
        &b.metadata_log.items,
        a.metadata_log.count,
        b.metadata_log.count,
        part::METADATA_LOG,
        from_schemas,
    );
    let from_log = compare_tables(
        &a.snapshot_log.items,
        &b.snapshot_log.items,
        a.snapshot_log.count,
        b.snapshot_log.count,
        part::SNAPSHOT_LOG,
        from_files,
    );
    let from_refs = compare_tables(
        &a.refs.items,
        &b.refs.items,
        a.refs.count,
        b.refs.count,
        part::REFS,
        from_log,
    );
    let from_snapshots = compare_tables(
        &a.snapshots.items,
        &b.snapshots.items,
        a.snapshots.count,
        b.snapshots.count,
        part::SNAPSHOTS,
        from_refs,
    );
    compare_fields(a.fields, b.fields, from_snapshots)
}
