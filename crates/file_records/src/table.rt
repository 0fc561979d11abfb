// The tables and logs of a metadata file, each of its keyed tables in the order of its keys.
ghost use Rattle.std.specs.Prelude.{◌≡◌, not, ◌&&◌, [], ◌∷◌, ◌+◌, ◌<◌, ◌≤◌, eqb, pos};
ghost use Rattle.rules.specs.WellFormed.{snapshot_below, schema_below, order_below, spec_below, statistics_below};
ghost use Rattle.rules.specs.Layout.{laid_snapshots, laid_snapshot_log, laid_metadata_log, laid_schemas, laid_sort_orders, laid_statistics, laid_partition_specs};
ghost use Rattle.json_store.specs.Made.{each};
ghost use Rattle.file_rule.specs.Import.{sorted};
ghost use Rattle.file_records.specs.Decoded.{is_there, count_at, item_at, schema_at, spec_at, order_at, spec_fields_at, schemas_in, specs_in, orders_in, snapshots_in, snapshot_log_in, metadata_log_in, statistics_in};

use crate::keyed::order_of;
use crate::offsets;
use crate::record::{
    file_entry_at, log_entry_at, order_at, schema_at, snapshot_at, spec_at, spec_of, statistics_at,
};
use crate::slots::fill;
use crate::value::{Cells, count_of, is_there};
use records::capacities::{
    METADATA_LOG, PARTITION_SPECS, SCHEMAS, SNAPSHOT_LOG, SNAPSHOTS, SORT_ORDERS, STATISTICS,
};
use records::counters::SpecId;
use records::metadata::MetadataLog;
use records::partition::PartitionSpecs;
use records::schema::Schemas;
use records::snapshot::{SnapshotLog, Snapshots};
use records::sort_order::SortOrders;
use records::statistics::StatisticsFiles;

// ---- snapshots and logs

pub fn snapshots(bytes: &[u8], cells: &Cells) -> Snapshots
    ensures { result ≡ laid_snapshots (sorted snapshot_below (snapshots_in bytes.now cells.now)) }
{
    let count = count_of(cells, offsets::SNAPSHOTS, SNAPSHOTS);
    let order = order_of(
        bytes,
        cells,
        false,
        offsets::SNAPSHOTS + 1,
        offsets::SNAPSHOT,
        count,
    );
    let mut table = Snapshots::blank();
    fill(&mut table.items, count, |i| {
        snapshot_at(
            bytes,
            cells,
            offsets::SNAPSHOTS + 1 + order.items[i] * offsets::SNAPSHOT,
        )
    });
    table.count = count;
    table
}

pub fn snapshot_log(bytes: &[u8], cells: &Cells) -> SnapshotLog
    ensures { result ≡ laid_snapshot_log (snapshot_log_in bytes.now cells.now) }
{
    let count = count_of(cells, offsets::SNAPSHOT_LOG, SNAPSHOT_LOG);
    let mut log = SnapshotLog::blank();
    fill(&mut log.items, count, |i| {
        log_entry_at(
            bytes,
            cells,
            offsets::SNAPSHOT_LOG + 1 + i * offsets::LOG_ENTRY,
        )
    });
    log.count = count;
    log
}

pub fn metadata_log(bytes: &[u8], cells: &Cells) -> MetadataLog
    ensures { result ≡ laid_metadata_log (metadata_log_in bytes.now cells.now) }
{
    let count = count_of(cells, offsets::METADATA_LOG, METADATA_LOG);
    let mut log = MetadataLog::blank();
    fill(&mut log.items, count, |i| {
        file_entry_at(
            bytes,
            cells,
            offsets::METADATA_LOG + 1 + i * offsets::LOG_ENTRY,
        )
    });
    log.count = count;
    log
}

// Of either table, by the place of its list.
pub fn statistics(bytes: &[u8], cells: &Cells, list: usize) -> StatisticsFiles
    requires { list + 193 ≤ 9047 }
    ensures { result ≡ laid_statistics (sorted statistics_below (statistics_in bytes.now cells.now list)) }
{
    let count = count_of(cells, list, STATISTICS);
    let order = order_of(
        bytes,
        cells,
        false,
        list + 1,
        offsets::STATISTICS_FILE,
        count,
    );
    let mut table = StatisticsFiles::blank();
    fill(&mut table.items, count, |i| {
        statistics_at(
            bytes,
            cells,
            list + 1 + order.items[i] * offsets::STATISTICS_FILE,
        )
    });
    table.count = count;
    table
}

// ---- schemas, partition specs and sort orders

// In version 1 the table and the id of the current one decide where both are there, and else the single one.
pub fn single_decides(version: usize, cells: &Cells, table: usize, chosen: usize) -> bool
    requires { (table < 9047) × (chosen < 9047) }
    ensures { result ≡ (eqb version 1 && not (is_there cells.now table && is_there cells.now chosen)) }
{
    if version != 1 {
        return false;
    }
    if is_there(cells, table) {
        return !is_there(cells, chosen);
    }
    true
}

fn one_schema(bytes: &[u8], cells: &Cells) -> Schemas
    ensures { result ≡ laid_schemas (schema_at bytes.now cells.now 12 ∷ []) }
{
    let mut table = Schemas::blank();
    table.items[0] = schema_at(bytes, cells, offsets::SINGLE_SCHEMA);
    table.count = 1;
    table
}

fn all_schemas(bytes: &[u8], cells: &Cells) -> Schemas
    ensures { result ≡ laid_schemas (sorted schema_below (each (λ i. schema_at bytes.now cells.now (item_at 261 273 i)) (count_at cells.now 16 273))) }
{
    let count = count_of(cells, offsets::SCHEMAS, SCHEMAS);
    let order = order_of(
        bytes,
        cells,
        true,
        offsets::SCHEMAS + 1 + offsets::SCHEMA_ID,
        offsets::SCHEMA,
        count,
    );
    let mut table = Schemas::blank();
    fill(&mut table.items, count, |i| {
        schema_at(
            bytes,
            cells,
            offsets::SCHEMAS + 1 + order.items[i] * offsets::SCHEMA,
        )
    });
    table.count = count;
    table
}

pub fn schemas(version: usize, bytes: &[u8], cells: &Cells) -> Schemas
    ensures { result ≡ laid_schemas (sorted schema_below (schemas_in bytes.now cells.now version)) }
{
    if single_decides(version, cells, offsets::SCHEMAS, offsets::CURRENT_SCHEMA_ID) {
        return one_schema(bytes, cells);
    }
    all_schemas(bytes, cells)
}

fn one_spec(bytes: &[u8], cells: &Cells) -> PartitionSpecs
    ensures { result ≡ laid_partition_specs (record { id = pos 0; fields = spec_fields_at bytes.now cells.now 4452 } ∷ []) }
{
    let mut table = PartitionSpecs::blank();
    table.items[0] = spec_of(bytes, cells, offsets::SINGLE_SPEC, SpecId(0));
    table.count = 1;
    table
}

fn all_specs(bytes: &[u8], cells: &Cells) -> PartitionSpecs
    ensures { result ≡ laid_partition_specs (sorted spec_below (each (λ i. spec_at bytes.now cells.now (item_at 67 4517 i)) (count_at cells.now 16 4517))) }
{
    let count = count_of(cells, offsets::PARTITION_SPECS, PARTITION_SPECS);
    let order = order_of(
        bytes,
        cells,
        true,
        offsets::PARTITION_SPECS + 1,
        offsets::SPEC,
        count,
    );
    let mut table = PartitionSpecs::blank();
    fill(&mut table.items, count, |i| {
        spec_at(
            bytes,
            cells,
            offsets::PARTITION_SPECS + 1 + order.items[i] * offsets::SPEC,
        )
    });
    table.count = count;
    table
}

pub fn partition_specs(version: usize, bytes: &[u8], cells: &Cells) -> PartitionSpecs
    ensures { result ≡ laid_partition_specs (sorted spec_below (specs_in bytes.now cells.now version)) }
{
    if single_decides(
        version,
        cells,
        offsets::PARTITION_SPECS,
        offsets::DEFAULT_SPEC_ID,
    ) {
        return one_spec(bytes, cells);
    }
    all_specs(bytes, cells)
}

fn all_orders(bytes: &[u8], cells: &Cells) -> SortOrders
    ensures { result ≡ laid_sort_orders (sorted order_below (each (λ i. order_at bytes.now cells.now (item_at 67 7391 i)) (count_at cells.now 16 7391))) }
{
    let count = count_of(cells, offsets::SORT_ORDERS, SORT_ORDERS);
    let order = order_of(
        bytes,
        cells,
        false,
        offsets::SORT_ORDERS + 1,
        offsets::ORDER,
        count,
    );
    let mut table = SortOrders::blank();
    fill(&mut table.items, count, |i| {
        order_at(
            bytes,
            cells,
            offsets::SORT_ORDERS + 1 + order.items[i] * offsets::ORDER,
        )
    });
    table.count = count;
    table
}

// Where there is no table, the order 0 without fields, which is blank.
pub fn sort_orders(bytes: &[u8], cells: &Cells) -> SortOrders
    ensures { result ≡ laid_sort_orders (sorted order_below (orders_in bytes.now cells.now)) }
{
    if is_there(cells, offsets::SORT_ORDERS) {
        return all_orders(bytes, cells);
    }
    let mut t = SortOrders::blank();
    t.count = 1;
    t
}
