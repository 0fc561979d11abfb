// The tables: their records with commas between them. One that is counted and has no slot is blank.
ghost use Rattle.rules.specs.Layout.{read_snapshots, read_snapshot_log, read_metadata_log, read_refs, read_schema, read_schemas, read_sort_order, read_sort_orders, read_partition_spec, read_partition_specs, read_statistics};
ghost use Rattle.file_rule.specs.Written.{items};
ghost use Rattle.file_rule.specs.Files.{snapshot_text, log_entry_text, file_entry_text, ref_text, field_text, schema_text, sort_field_text, order_text, partition_field_text, spec_text, statistics_text};
ghost use Rattle.file_text.specs.Puts.{Puts};

use crate::number::{of_order, of_schema, of_spec};
use crate::record::{
    put_field, put_file, put_file_entry, put_log_entry, put_partition_field, put_ref, put_snapshot,
    put_sort_field,
};
use file_text::bytes::put;
use file_text::list::put_items;
use file_text::numbers::put_number;
use records::metadata::{MetadataLog, MetadataLogEntry};
use records::partition::{PartitionField, PartitionSpec, PartitionSpecs};
use records::reference::{NamedRef, Refs};
use records::schema::{Schema, SchemaField, Schemas};
use records::snapshot::{Snapshot, SnapshotLog, SnapshotLogEntry, Snapshots};
use records::sort_order::{SortField, SortOrder, SortOrders};
use records::statistics::{StatisticsFile, StatisticsFiles};

pub fn put_snapshots(buffer: &mut [u8], at: usize, version: u8, t: Snapshots) -> usize
    ensures { Puts buffer.old at (items (snapshot_text version) (read_snapshots t)) result buffer.new }
{
    put_items(
        buffer,
        at,
        &t.items,
        t.count,
        Snapshot::blank(),
        |buffer, at, x| { put_snapshot(buffer, at, version, x) },
    )
}

pub fn put_snapshot_log(buffer: &mut [u8], at: usize, t: SnapshotLog) -> usize
    ensures { Puts buffer.old at (items log_entry_text (read_snapshot_log t)) result buffer.new }
{
    put_items(
        buffer,
        at,
        &t.items,
        t.count,
        SnapshotLogEntry::blank(),
        put_log_entry,
    )
}

pub fn put_metadata_log(buffer: &mut [u8], at: usize, t: MetadataLog) -> usize
    ensures { Puts buffer.old at (items file_entry_text (read_metadata_log t)) result buffer.new }
{
    put_items(
        buffer,
        at,
        &t.items,
        t.count,
        MetadataLogEntry::blank(),
        put_file_entry,
    )
}

pub fn put_refs(buffer: &mut [u8], at: usize, t: Refs) -> usize
    ensures { Puts buffer.old at (items ref_text (read_refs t)) result buffer.new }
{
    put_items(buffer, at, &t.items, t.count, NamedRef::blank(), put_ref)
}

pub fn put_files(buffer: &mut [u8], at: usize, t: StatisticsFiles) -> usize
    ensures { Puts buffer.old at (items statistics_text (read_statistics t)) result buffer.new }
{
    put_items(
        buffer,
        at,
        &t.items,
        t.count,
        StatisticsFile::blank(),
        put_file,
    )
}

fn put_fields(buffer: &mut [u8], at: usize, t: Schema) -> usize
    ensures { Puts buffer.old at (items field_text (read_schema t).fields) result buffer.new }
{
    put_items(
        buffer,
        at,
        &t.items,
        t.count,
        SchemaField::blank(),
        put_field,
    )
}

pub fn put_schema(buffer: &mut [u8], at: usize, s: Schema) -> usize
    ensures { Puts buffer.old at (schema_text (read_schema s)) result buffer.new }
{
    let at = put(buffer, at, b"{\"type\":\"struct\",\"fields\":[");
    let at = put_fields(buffer, at, s);
    let at = put_number(
        buffer,
        at,
        true,
        b"],\"schema-id\":",
        of_schema(s.schema_id),
    );
    put(buffer, at, b"}")
}

pub fn put_schemas(buffer: &mut [u8], at: usize, t: Schemas) -> usize
    ensures { Puts buffer.old at (items schema_text (read_schemas t)) result buffer.new }
{
    put_items(buffer, at, &t.items, t.count, Schema::blank(), put_schema)
}

pub fn put_partition_fields(buffer: &mut [u8], at: usize, t: PartitionSpec) -> usize
    ensures { Puts buffer.old at (items partition_field_text (read_partition_spec t).fields) result buffer.new }
{
    put_items(
        buffer,
        at,
        &t.items,
        t.count,
        PartitionField::blank(),
        put_partition_field,
    )
}

fn put_spec(buffer: &mut [u8], at: usize, s: PartitionSpec) -> usize
    ensures { Puts buffer.old at (spec_text (read_partition_spec s)) result buffer.new }
{
    let at = put_number(buffer, at, true, b"{\"spec-id\":", of_spec(s.spec_id));
    let at = put(buffer, at, b",\"fields\":[");
    let at = put_partition_fields(buffer, at, s);
    put(buffer, at, b"]}")
}

pub fn put_specs(buffer: &mut [u8], at: usize, t: PartitionSpecs) -> usize
    ensures { Puts buffer.old at (items spec_text (read_partition_specs t)) result buffer.new }
{
    put_items(
        buffer,
        at,
        &t.items,
        t.count,
        PartitionSpec::blank(),
        put_spec,
    )
}

fn put_sort_fields(buffer: &mut [u8], at: usize, t: SortOrder) -> usize
    ensures { Puts buffer.old at (items sort_field_text (read_sort_order t).fields) result buffer.new }
{
    put_items(
        buffer,
        at,
        &t.items,
        t.count,
        SortField::blank(),
        put_sort_field,
    )
}

pub fn put_order(buffer: &mut [u8], at: usize, o: SortOrder) -> usize
    ensures { Puts buffer.old at (order_text (read_sort_order o)) result buffer.new }
{
    let at = put_number(buffer, at, true, b"{\"order-id\":", of_order(o.order_id));
    let at = put(buffer, at, b",\"fields\":[");
    let at = put_sort_fields(buffer, at, o);
    put(buffer, at, b"]}")
}

pub fn put_orders(buffer: &mut [u8], at: usize, t: SortOrders) -> usize
    ensures { Puts buffer.old at (items order_text (read_sort_orders t)) result buffer.new }
{
    put_items(buffer, at, &t.items, t.count, SortOrder::blank(), put_order)
}
