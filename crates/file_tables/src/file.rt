// The file: the single fields in front of the tables, and the tables with the fields that go with them.
ghost use Rattle.std.specs.Prelude.{Bool, [], ◌∷◌, ◌++◌, ◌≡◌, MatchOption};
ghost use Rattle.std.proofs.Math.Option.{none, some};
ghost use Rattle.rules.specs.Words.{first};
ghost use Rattle.rules.specs.Layout.{counted, read_fields, read_schema, read_schemas, read_partition_spec, read_partition_specs, read_snapshots, read_snapshot_log, read_metadata_log, read_sort_orders, read_refs, read_statistics, read_metadata};
ghost use Rattle.file_rule.specs.Written.{list_text, also};
ghost use Rattle.file_rule.specs.Files.{schema_text, partition_field_text, schema_by_id, spec_fields, head_text, schemas_text, specs_text, snapshots_text, tail_text, file_text};
ghost use Rattle.file_text.specs.Puts.{Puts, only_if};
ghost use Rattle.file_tables.specs.Parts.{of_fields, of_schemas, of_specs, of_snapshots, of_rest};

use crate::number::{of_field, of_order, of_schema, of_sequence, of_snapshot, of_spec, of_time};
use crate::table::{
    put_files, put_metadata_log, put_orders, put_partition_fields, put_refs, put_schema,
    put_schemas, put_snapshot_log, put_snapshots, put_specs,
};
use file_text::bytes::put;
use file_text::numbers::{put_natural, put_number};
use file_text::texts::{put_text, put_uuid};
use records::counters::{SchemaId, SpecId};
use records::metadata::{MetadataLog, SingleFields, TableMetadata};
use records::partition::{PartitionSpec, PartitionSpecs};
use records::reference::Refs;
use records::schema::{Schema, Schemas};
use records::snapshot::{SnapshotLog, Snapshots};
use records::sort_order::SortOrders;
use records::statistics::StatisticsFiles;

// With the brace in front.
fn put_head(buffer: &mut [u8], at: usize, f: SingleFields) -> usize
    ensures { Puts buffer.old at (123 ∷ head_text (of_fields (read_fields f))) result buffer.new }
{
    let at = put_natural(
        buffer,
        at,
        true,
        b"{\"format-version\":",
        f.format_version as u64,
    );
    let at = put_uuid(buffer, at, b",\"table-uuid\":", &f.table_uuid);
    let at = put_text(buffer, at, b",\"location\":", f.location);
    let at = put_number(
        buffer,
        at,
        f.format_version >= 2,
        b",\"last-sequence-number\":",
        of_sequence(f.last_sequence_number),
    );
    let at = put_number(
        buffer,
        at,
        true,
        b",\"last-updated-ms\":",
        of_time(f.last_updated_ms),
    );
    put_number(
        buffer,
        at,
        true,
        b",\"last-column-id\":",
        of_field(f.last_column_id),
    )
}

// The first of so many slots of which the test is true; one that is counted and not there is blank.
fn find_item<T: Copy, F: Fn(&T) -> bool>(
    slots: &[T],
    count: usize,
    blank: T,
    is_wanted: F,
) -> Option<T>
    ghost test: { T → Bool }
    requires callable { F.IsAlwaysCallable is_wanted }
    requires tests { (x : _) (r : _) → F.post is_wanted x r → r ≡ test x.now }
    ensures { MatchOption result (first test (counted blank slots.now count) ≡ none) (λ x. first test (counted blank slots.now count) ≡ some x) }
{
    for i in 0..count {
        let item = *slots.get(i).unwrap_or(&blank);
        if is_wanted(&item) {
            return Some(item);
        }
    }
    None
}

// The schema of an id; one without fields where it is not held.
fn schema_by_id(t: Schemas, id: SchemaId) -> Schema
    ensures { read_schema result ≡ schema_by_id id.0 (read_schemas t) }
{
    let held = find_item(&t.items, t.count, Schema::blank(), |s| s.schema_id == id);
    held.unwrap_or(Schema {
        schema_id: id,
        ..Schema::blank()
    })
}

// The spec of an id; one without fields where it is not held.
fn spec_by_id(t: PartitionSpecs, id: SpecId) -> PartitionSpec
    ensures { (read_partition_spec result).fields ≡ spec_fields id.0 (read_partition_specs t) }
{
    let held = find_item(
        &t.items,
        t.count,
        PartitionSpec::blank(),
        |s| s.spec_id == id,
    );
    held.unwrap_or(PartitionSpec::blank())
}

// Version 1 has the current schema once more.
fn put_current_schema(buffer: &mut [u8], at: usize, wanted: bool, t: Schemas, id: SchemaId) -> usize
    ensures { Puts buffer.old at (only_if wanted (also "schema" (schema_text (schema_by_id id.0 (read_schemas t))))) result buffer.new }
{
    if wanted {
        let named = put(buffer, at, b",\"schema\":");
        return put_schema(buffer, named, schema_by_id(t, id));
    }
    at
}

// It has the fields of the default spec once more.
fn put_default_spec(
    buffer: &mut [u8],
    at: usize,
    wanted: bool,
    t: PartitionSpecs,
    id: SpecId,
) -> usize
    ensures { Puts buffer.old at (only_if wanted (also "partition-spec" (list_text partition_field_text (spec_fields id.0 (read_partition_specs t))))) result buffer.new }
{
    if wanted {
        let named = put(buffer, at, b",\"partition-spec\":[");
        let listed = put_partition_fields(buffer, named, spec_by_id(t, id));
        return put(buffer, listed, b"]");
    }
    at
}

fn put_schemas_part(buffer: &mut [u8], at: usize, f: SingleFields, t: Schemas) -> usize
    ensures { Puts buffer.old at (schemas_text (of_schemas (read_fields f) (read_schemas t))) result buffer.new }
{
    let at = put_current_schema(buffer, at, f.format_version <= 1, t, f.current_schema_id);
    let at = put(buffer, at, b",\"schemas\":[");
    let at = put_schemas(buffer, at, t);
    put_number(
        buffer,
        at,
        true,
        b"],\"current-schema-id\":",
        of_schema(f.current_schema_id),
    )
}

fn put_specs_part(buffer: &mut [u8], at: usize, f: SingleFields, t: PartitionSpecs) -> usize
    ensures { Puts buffer.old at (specs_text (of_specs (read_fields f) (read_partition_specs t))) result buffer.new }
{
    let at = put_default_spec(buffer, at, f.format_version <= 1, t, f.default_spec_id);
    let at = put(buffer, at, b",\"partition-specs\":[");
    let at = put_specs(buffer, at, t);
    let at = put_number(
        buffer,
        at,
        true,
        b"],\"default-spec-id\":",
        of_spec(f.default_spec_id),
    );
    put_number(
        buffer,
        at,
        true,
        b",\"last-partition-id\":",
        of_field(f.last_partition_id),
    )
}

fn put_snapshots_part(
    buffer: &mut [u8],
    at: usize,
    f: SingleFields,
    t: Snapshots,
    log: SnapshotLog,
    files: MetadataLog,
) -> usize
    ensures { Puts buffer.old at (snapshots_text (of_snapshots (read_fields f) (read_snapshots t) (read_snapshot_log log) (read_metadata_log files))) result buffer.new }
{
    let at = put_number(
        buffer,
        at,
        f.has_current,
        b",\"current-snapshot-id\":",
        of_snapshot(f.current_snapshot_id),
    );
    let at = put(buffer, at, b",\"snapshots\":[");
    let at = put_snapshots(buffer, at, f.format_version, t);
    let at = put(buffer, at, b"],\"snapshot-log\":[");
    let at = put_snapshot_log(buffer, at, log);
    let at = put(buffer, at, b"],\"metadata-log\":[");
    let at = put_metadata_log(buffer, at, files);
    put(buffer, at, b"]")
}

// With the brace behind.
fn put_tail(
    buffer: &mut [u8],
    at: usize,
    f: SingleFields,
    orders: SortOrders,
    refs: Refs,
    files: StatisticsFiles,
    others: StatisticsFiles,
) -> usize
    ensures { Puts buffer.old at (tail_text (of_rest (read_fields f) (read_sort_orders orders) (read_refs refs) (read_statistics files) (read_statistics others)) ++ (125 ∷ [])) result buffer.new }
{
    let at = put(buffer, at, b",\"sort-orders\":[");
    let at = put_orders(buffer, at, orders);
    let at = put_number(
        buffer,
        at,
        true,
        b"],\"default-sort-order-id\":",
        of_order(f.default_sort_order_id),
    );
    let at = put(buffer, at, b",\"refs\":{");
    let at = put_refs(buffer, at, refs);
    let at = put(buffer, at, b"},\"statistics\":[");
    let at = put_files(buffer, at, files);
    let at = put(buffer, at, b"],\"partition-statistics\":[");
    let at = put_files(buffer, at, others);
    let at = put(buffer, at, b"]");
    let at = put_natural(
        buffer,
        at,
        f.format_version >= 3,
        b",\"next-row-id\":",
        f.next_row_id.0,
    );
    put(buffer, at, b"}")
}

pub fn put_file(buffer: &mut [u8], m: TableMetadata) -> usize
    ensures { Puts buffer.old 0 (file_text (read_metadata m)) result buffer.new }
{
    let f = m.fields;
    let at = put_head(buffer, 0, f);
    let at = put_schemas_part(buffer, at, f, m.schemas);
    let at = put_specs_part(buffer, at, f, m.partition_specs);
    let at = put_snapshots_part(buffer, at, f, m.snapshots, m.snapshot_log, m.metadata_log);
    put_tail(
        buffer,
        at,
        f,
        m.sort_orders,
        m.refs,
        m.statistics,
        m.partition_statistics,
    )
}
