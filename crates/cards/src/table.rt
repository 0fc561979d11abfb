// The tables of metadata by their numbers, and the card of an element. Past the slots it is that of the last.
use crate::card::{Card, wide};
use crate::record::{
    file, log_entry, named_ref, partition_spec, schema, snapshot, sort_order, statistics_file,
};
use records::capacities::{
    METADATA_LOG, PARTITION_SPECS, REFS, SCHEMAS, SNAPSHOT_LOG, SNAPSHOTS, SORT_ORDERS, STATISTICS,
};
use records::metadata::{MetadataLog, SingleFields, TableMetadata};
use records::partition::PartitionSpecs;
use records::reference::Refs;
use records::schema::Schemas;
use records::snapshot::{SnapshotLog, Snapshots};
use records::sort_order::SortOrders;
use records::statistics::StatisticsFiles;
use slot_bounds::with_slots;

pub const OF_SNAPSHOTS: usize = 0;

pub const OF_REFS: usize = 1;

pub const OF_ENTRIES: usize = 2;

pub const OF_FILES: usize = 3;

pub const OF_SCHEMAS: usize = 4;

pub const OF_SORT_ORDERS: usize = 5;

pub const OF_STATISTICS: usize = 6;

pub const OF_PARTITION_STATISTICS: usize = 7;

pub const OF_PARTITION_SPECS: usize = 8;

pub const TABLES: usize = 9;

// The schemas once more, for whoever writes their fields with names and types.
pub const OF_NAMED_SCHEMAS: usize = 9;

// The refs once more, for whoever writes their owners.
pub const OF_OWNERS: usize = 10;

fn snapshot_at(table: Snapshots, i: usize) -> Card {
    let at = with_slots(i, SNAPSHOTS - 1);
    let s = table.items[at];
    snapshot(s)
}

fn ref_at(table: Refs, i: usize) -> Card {
    let at = with_slots(i, REFS - 1);
    let r = table.items[at];
    named_ref(r)
}

fn entry_at(log: SnapshotLog, i: usize) -> Card {
    let at = with_slots(i, SNAPSHOT_LOG - 1);
    let entry = log.items[at];
    log_entry(entry)
}

fn file_at(log: MetadataLog, i: usize) -> Card {
    let at = with_slots(i, METADATA_LOG - 1);
    let entry = log.items[at];
    file(entry)
}

fn schema_at(table: Schemas, i: usize) -> Card {
    let at = with_slots(i, SCHEMAS - 1);
    let s = table.items[at];
    schema(s)
}

fn sort_order_at(table: SortOrders, i: usize) -> Card {
    let at = with_slots(i, SORT_ORDERS - 1);
    let order = table.items[at];
    sort_order(order)
}

fn statistics_at(table: StatisticsFiles, i: usize) -> Card {
    let at = with_slots(i, STATISTICS - 1);
    let f = table.items[at];
    statistics_file(f)
}

fn spec_at(table: PartitionSpecs, i: usize) -> Card {
    let at = with_slots(i, PARTITION_SPECS - 1);
    let spec = table.items[at];
    partition_spec(spec)
}

pub fn card_at(metadata: TableMetadata, table: usize, i: usize) -> Card {
    match table {
        OF_SNAPSHOTS => snapshot_at(metadata.snapshots, i),
        OF_REFS | OF_OWNERS => ref_at(metadata.refs, i),
        OF_ENTRIES => entry_at(metadata.snapshot_log, i),
        OF_FILES => file_at(metadata.metadata_log, i),
        OF_SCHEMAS | OF_NAMED_SCHEMAS => schema_at(metadata.schemas, i),
        OF_SORT_ORDERS => sort_order_at(metadata.sort_orders, i),
        OF_STATISTICS => statistics_at(metadata.statistics, i),
        OF_PARTITION_STATISTICS => statistics_at(metadata.partition_statistics, i),
        _ => spec_at(metadata.partition_specs, i),
    }
}

pub fn count_of(metadata: TableMetadata, table: usize) -> usize {
    match table {
        OF_SNAPSHOTS => metadata.snapshots.count,
        OF_REFS | OF_OWNERS => metadata.refs.count,
        OF_ENTRIES => metadata.snapshot_log.count,
        OF_FILES => metadata.metadata_log.count,
        OF_SCHEMAS | OF_NAMED_SCHEMAS => metadata.schemas.count,
        OF_SORT_ORDERS => metadata.sort_orders.count,
        OF_STATISTICS => metadata.statistics.count,
        OF_PARTITION_STATISTICS => metadata.partition_statistics.count,
        _ => metadata.partition_specs.count,
    }
}

pub fn slots_of(table: usize) -> usize {
    match table {
        OF_SNAPSHOTS => SNAPSHOTS,
        OF_REFS | OF_OWNERS => REFS,
        OF_ENTRIES => SNAPSHOT_LOG,
        OF_FILES => METADATA_LOG,
        OF_SCHEMAS | OF_NAMED_SCHEMAS => SCHEMAS,
        OF_SORT_ORDERS => SORT_ORDERS,
        OF_PARTITION_SPECS => PARTITION_SPECS,
        _ => STATISTICS,
    }
}

// What metadata has beside a table: the current schema; the default sort order; the default spec and the last partition id.
pub fn chosen_of(fields: SingleFields, table: usize) -> Card {
    match table {
        OF_SCHEMAS => Card::of_number(wide(fields.current_schema_id.0)),
        OF_SORT_ORDERS => Card::of_number(fields.default_sort_order_id.0),
        _ => Card::of_numbers(
            [
                wide(fields.default_spec_id.0),
                wide(fields.last_partition_id.0),
                0,
                0,
                0,
                0,
                0,
                0,
            ],
            [0, 0],
        ),
    }
}

// A table by itself, as metadata that has no other.
pub fn only_files(log: MetadataLog) -> TableMetadata {
    let mut metadata = TableMetadata::blank();
    metadata.metadata_log = log;
    metadata
}
