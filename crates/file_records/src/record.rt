// Records by the first of their cells.
ghost use Rattle.std.specs.Prelude.{◌≡◌, cond, ◌&&◌, ◌+◌, ◌<◌, ◌≤◌, pos};
ghost use Rattle.rules.specs.Words.{or_else};
ghost use Rattle.rules.specs.Layout.{laid_snapshot, laid_reference, laid_ref, laid_log_entry, laid_metadata_log_entry, laid_statistics_file, laid_schema_field, laid_schema, laid_sort_field, laid_sort_order, laid_partition_field, laid_partition_spec};
ghost use Rattle.file_records.specs.Decoded.{is_there, natural_at, maybe_narrow_at, snapshot_at, reference_at, ref_at, log_entry_at, file_entry_at, statistics_at, field_at, schema_at, sort_field_at, order_at, partition_field_at, spec_fields_at, spec_at};
ghost use Rattle.file_records.specs.Positions.{placed};

use crate::slots::fill;
use crate::text::{choice, name_at, text_at, transform_at};
use crate::value::{Cells, count_of, is_there, narrow_number, natural, number};
use records::capacities::{PARTITION_FIELDS, SCHEMA_FIELDS, SORT_FIELDS};
use records::counters::{
    Age, Buckets, FieldId, FileSize, MinSnapshots, RowId, SchemaId, SequenceNumber, SnapshotId,
    SortOrderId, SpecId, Time,
};
use records::metadata::MetadataLogEntry;
use records::partition::{PartitionField, PartitionSpec};
use records::reference::{NamedRef, SnapshotReference};
use records::schema::{LONG, Schema, SchemaField, TIMESTAMP};
use records::snapshot::{Snapshot, SnapshotLogEntry};
use records::sort_order::{SortField, SortOrder};
use records::statistics::StatisticsFile;

// The cells of a field of any kind.
pub const FIELD: usize = 8;

// The kinds of refs.
pub const BRANCH: u8 = 1;

const TAG: u8 = 2;

// ---- snapshots and logs

// Whether both halves of a row range are there.
fn has_rows(cells: &Cells, first: usize, added: usize) -> bool
    requires { (first < 9047) × (added < 9047) }
    ensures { result ≡ is_there cells.now first && is_there cells.now added }
{
    if is_there(cells, first) {
        return is_there(cells, added);
    }
    false
}

// A number of a row range; 0 where there is none.
fn row_number(cells: &Cells, has: bool, at: usize) -> u64
    requires { at + 1 < 9047 }
    ensures { result ≡ cond has (natural_at cells.now at) 0 }
{
    if has {
        return natural(cells, at);
    }
    0
}

pub fn snapshot_at(bytes: &[u8], cells: &Cells, at: usize) -> Snapshot
    requires { at + 12 ≤ 9047 }
    ensures { result ≡ laid_snapshot (snapshot_at bytes.now cells.now at) }
{
    let id = number(bytes, cells, at);
    let has_parent = is_there(cells, at + 2);
    let parent = number(bytes, cells, at + 2);
    let sequence = number(bytes, cells, at + 4);
    let time = number(bytes, cells, at + 6);
    let has_rows = has_rows(cells, at + 8, at + 10);
    let first = row_number(cells, has_rows, at + 8);
    let added = row_number(cells, has_rows, at + 10);
    Snapshot {
        snapshot_id: SnapshotId(id.0),
        has_parent,
        parent_snapshot_id: SnapshotId(parent.0),
        sequence_number: SequenceNumber(sequence.0),
        timestamp_ms: Time(time.0),
        has_rows,
        first_row_id: RowId(first),
        added_rows: added,
    }
}

pub fn log_entry_at(bytes: &[u8], cells: &Cells, at: usize) -> SnapshotLogEntry
    requires { at + 4 ≤ 9047 }
    ensures { result ≡ laid_log_entry (log_entry_at bytes.now cells.now at) }
{
    let id = number(bytes, cells, at);
    let time = number(bytes, cells, at + 2);
    SnapshotLogEntry {
        snapshot_id: SnapshotId(id.0),
        timestamp_ms: Time(time.0),
    }
}

pub fn file_entry_at(bytes: &[u8], cells: &Cells, at: usize) -> MetadataLogEntry
    requires { at + 4 ≤ 9047 }
    ensures { result ≡ laid_metadata_log_entry (file_entry_at bytes.now cells.now at) }
{
    let metadata_file = text_at(bytes, cells, at);
    let time = number(bytes, cells, at + 2);
    MetadataLogEntry {
        metadata_file,
        timestamp_ms: Time(time.0),
    }
}

pub fn statistics_at(bytes: &[u8], cells: &Cells, at: usize) -> StatisticsFile
    requires { at + 6 ≤ 9047 }
    ensures { result ≡ laid_statistics_file (statistics_at bytes.now cells.now at) }
{
    let id = number(bytes, cells, at);
    let statistics_path = text_at(bytes, cells, at + 2);
    let size = number(bytes, cells, at + 4);
    StatisticsFile {
        snapshot_id: SnapshotId(id.0),
        statistics_path,
        file_size_in_bytes: FileSize(size.0),
    }
}

// ---- refs

pub fn reference_at(bytes: &[u8], cells: &Cells, at: usize) -> SnapshotReference
    requires { at + 10 ≤ 9047 }
    ensures { result ≡ laid_reference (reference_at bytes.now cells.now at) }
{
    let id = number(bytes, cells, at);
    let kind = choice(bytes, cells, at + 2, b"branch", BRANCH, TAG);
    let has_min = is_there(cells, at + 4);
    let min = narrow_number(bytes, cells, at + 4);
    let has_age = is_there(cells, at + 6);
    let age = number(bytes, cells, at + 6);
    let has_ref_age = is_there(cells, at + 8);
    let ref_age = number(bytes, cells, at + 8);
    SnapshotReference {
        snapshot_id: SnapshotId(id.0),
        kind,
        has_min,
        min_snapshots_to_keep: MinSnapshots(min.0),
        has_age,
        max_snapshot_age_ms: Age(age.0),
        has_ref_age,
        max_ref_age_ms: Age(ref_age.0),
    }
}

// Its name stands in front of it; office 1 owns it.
pub fn ref_at(bytes: &[u8], cells: &Cells, at: usize) -> NamedRef
    requires { at + 12 ≤ 9047 }
    ensures { result ≡ laid_ref (ref_at bytes.now cells.now at) }
{
    let name = name_at(bytes, cells, at);
    let reference = reference_at(bytes, cells, at + 2);
    NamedRef {
        name,
        reference,
        owner: 1,
    }
}

// ---- schemas

fn field_at(bytes: &[u8], cells: &Cells, at: usize) -> SchemaField
    requires { at + 8 ≤ 9047 }
    ensures { result ≡ laid_schema_field (field_at bytes.now cells.now at) }
{
    let id = narrow_number(bytes, cells, at);
    let name = name_at(bytes, cells, at + 2);
    let field_type = choice(bytes, cells, at + 6, b"long", LONG, TIMESTAMP);
    SchemaField {
        id: FieldId(id.0),
        field_type,
        name,
    }
}

pub fn schema_at(bytes: &[u8], cells: &Cells, at: usize) -> Schema
    requires { at + 261 ≤ 9047 }
    ensures { result ≡ laid_schema (schema_at bytes.now cells.now at) }
{
    let count = count_of(cells, at + 2, SCHEMA_FIELDS);
    let mut schema = Schema::blank();
    fill(
        &mut schema.items,
        count,
        |i| field_at(bytes, cells, at + 3 + i * FIELD),
    );
    schema.schema_id = SchemaId(narrow_number(bytes, cells, at + 259).0);
    schema.count = count;
    schema
}

// ---- sort orders

fn sort_field_at(bytes: &[u8], cells: &Cells, at: usize) -> SortField
    requires { at + 8 ≤ 9047 }
    ensures { result ≡ laid_sort_field (sort_field_at bytes.now cells.now at) }
{
    let source = narrow_number(bytes, cells, at + 2);
    let direction = choice(bytes, cells, at + 4, b"asc", 0, 1);
    let nulls = choice(bytes, cells, at + 6, b"nulls-first", 0, 1);
    SortField {
        source_id: FieldId(source.0),
        direction,
        null_order: nulls,
    }
}

pub fn order_at(bytes: &[u8], cells: &Cells, at: usize) -> SortOrder
    requires { at + 67 ≤ 9047 }
    ensures { result ≡ laid_sort_order (order_at bytes.now cells.now at) }
{
    let count = count_of(cells, at + 2, SORT_FIELDS);
    let mut order = SortOrder::blank();
    fill(
        &mut order.items,
        count,
        |i| sort_field_at(bytes, cells, at + 3 + i * FIELD),
    );
    order.order_id = SortOrderId(number(bytes, cells, at).0);
    order.count = count;
    order
}

// ---- partition specs

// The id of the field at a position; one that has none has 1000 and its position.
pub fn field_id(bytes: &[u8], cells: &Cells, at: usize, position: usize) -> FieldId
    requires { (at + 1 < 9047) × (position < 8) }
    ensures { result.0 ≡ or_else (maybe_narrow_at bytes.now cells.now at) (pos (1000 + position)) }
{
    if is_there(cells, at) {
        let z = narrow_number(bytes, cells, at);
        return FieldId(z.0);
    }
    FieldId((1000 + position) as i32)
}

fn partition_field_at(bytes: &[u8], cells: &Cells, at: usize, position: usize) -> PartitionField
    requires { (at + 8 ≤ 9047) × (position < 8) }
    ensures { result ≡ laid_partition_field (placed position (partition_field_at bytes.now cells.now at)) }
{
    let source = narrow_number(bytes, cells, at);
    let field_id = field_id(bytes, cells, at + 2, position);
    let name = name_at(bytes, cells, at + 4);
    let transform = transform_at(bytes, cells, at + 6);
    PartitionField {
        source_id: FieldId(source.0),
        field_id,
        buckets: Buckets(transform.buckets as i32),
        transform: transform.kind,
        has_id: true,
        name,
    }
}

// The spec of an id whose fields are these.
pub fn spec_of(bytes: &[u8], cells: &Cells, list: usize, id: SpecId) -> PartitionSpec
    requires { list + 65 ≤ 9047 }
    ensures { result ≡ laid_partition_spec (record { id = id.0; fields = spec_fields_at bytes.now cells.now list }) }
{
    let count = count_of(cells, list, PARTITION_FIELDS);
    let mut spec = PartitionSpec::blank();
    fill(&mut spec.items, count, |i| {
        partition_field_at(bytes, cells, list + 1 + i * FIELD, i)
    });
    spec.spec_id = id;
    spec.count = count;
    spec
}

pub fn spec_at(bytes: &[u8], cells: &Cells, at: usize) -> PartitionSpec
    requires { at + 67 ≤ 9047 }
    ensures { result ≡ laid_partition_spec (spec_at bytes.now cells.now at) }
{
    let id = narrow_number(bytes, cells, at);
    spec_of(bytes, cells, at + 2, SpecId(id.0))
}
