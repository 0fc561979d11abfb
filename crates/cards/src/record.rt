// Each record as its card.
use crate::card::{Card, IDS, List, SORTED_FIELDS, Text, text_of, wide};
use records::capacities::{REMOVALS, SCHEMA_FIELDS, SORT_FIELDS};
use records::metadata::{MetadataLogEntry, SingleFields};
use records::partition::{PartitionSpec, SpecIds};
use records::reference::{NamedRef, SnapshotReference};
use records::run::FIRST_OFFICE;
use records::schema::{Schema, SchemaIds};
use records::snapshot::{Snapshot, SnapshotIds, SnapshotLogEntry};
use records::sort_order::SortOrder;
use records::statistics::StatisticsFile;
use records::text::Name;
use slot_bounds::with_slots;

// id, has_parent, parent, sequence, time, has_rows; first row, added rows
pub fn snapshot(s: Snapshot) -> Card {
    Card::of_numbers(
        [
            s.snapshot_id.0,
            s.has_parent as i64,
            s.parent_snapshot_id.0,
            s.sequence_number.0,
            s.timestamp_ms.0,
            s.has_rows as i64,
            0,
            0,
        ],
        [s.first_row_id.0, s.added_rows],
    )
}

// snapshot id, kind, has_min, minimum, has_age, age, has_ref_age, ref age
pub fn reference(r: SnapshotReference) -> Card {
    Card::of_numbers(
        [
            r.snapshot_id.0,
            r.kind as i64,
            r.has_min as i64,
            wide(r.min_snapshots_to_keep.0),
            r.has_age as i64,
            r.max_snapshot_age_ms.0,
            r.has_ref_age as i64,
            r.max_ref_age_ms.0,
        ],
        [0, 0],
    )
}

pub fn name_text(name: Name) -> Text {
    let bytes = name.bytes;
    text_of(&bytes, name.len)
}

pub fn location(location: records::text::Text) -> Text {
    let bytes = location.bytes;
    text_of(&bytes, location.len)
}

fn file_name(name: records::text::Text) -> Text {
    let bytes = name.bytes;
    text_of(&bytes, name.len)
}

// name; what a ref has; owner, whether people are told it
pub fn named_ref(named: NamedRef) -> Card {
    let owner = named.owner;
    let is_told = owner != FIRST_OFFICE;
    let card = reference(named.reference).with_text(name_text(named.name));
    card.with_unsigned([owner as u64, is_told as u64])
}

// snapshot id, time
pub fn log_entry(entry: SnapshotLogEntry) -> Card {
    Card::of_numbers(
        [entry.snapshot_id.0, entry.timestamp_ms.0, 0, 0, 0, 0, 0, 0],
        [0, 0],
    )
}

// file name; time
pub fn file(entry: MetadataLogEntry) -> Card {
    Card::of_number(entry.timestamp_ms.0).with_text(file_name(entry.metadata_file))
}

// snapshot id, size; path
pub fn statistics_file(file: StatisticsFile) -> Card {
    let numbers = Card::of_numbers(
        [
            file.snapshot_id.0,
            file.file_size_in_bytes.0,
            0,
            0,
            0,
            0,
            0,
            0,
        ],
        [0, 0],
    );
    numbers.with_text(file_name(file.statistics_path))
}

// An id that is chosen, and whether it is -1, which stands for the last added.
pub fn chosen(id: i64) -> Card {
    Card::of_numbers([id, (id == -1) as i64, 0, 0, 0, 0, 0, 0], [0, 0])
}

pub fn snapshot_ids(ids: SnapshotIds) -> List {
    let mut numbers = [0i64; SCHEMA_FIELDS];
    let count = ids.count;
    let n = with_slots(count, REMOVALS);
    for (number, id) in numbers.iter_mut().zip(&ids.items[..n]) {
        *number = id.0;
    }
    List::of_numbers(IDS, numbers, REMOVALS, count)
}

pub fn schema_ids(ids: SchemaIds) -> List {
    let mut numbers = [0i64; SCHEMA_FIELDS];
    let count = ids.count;
    let n = with_slots(count, REMOVALS);
    for (number, id) in numbers.iter_mut().zip(&ids.items[..n]) {
        *number = wide(id.0);
    }
    List::of_numbers(IDS, numbers, REMOVALS, count)
}

pub fn spec_ids(ids: SpecIds) -> List {
    let mut numbers = [0i64; SCHEMA_FIELDS];
    let count = ids.count;
    let n = with_slots(count, REMOVALS);
    for (number, id) in numbers.iter_mut().zip(&ids.items[..n]) {
        *number = wide(id.0);
    }
    List::of_numbers(IDS, numbers, REMOVALS, count)
}

// id; fields
pub fn schema(schema: Schema) -> Card {
    let fields = schema.items;
    Card::of_number(wide(schema.schema_id.0)).with_list(List::of_fields(fields, schema.count))
}

// Source id, direction and nulls of each field.
fn sort_fields(order: SortOrder) -> List {
    let mut numbers = [0i64; SCHEMA_FIELDS];
    let count = order.count;
    let n = with_slots(count, SORT_FIELDS);
    for (i, &field) in order.items[..n].iter().enumerate() {
        let at = 3 * i;
        numbers[at] = wide(field.source_id.0);
        numbers[at + 1] = field.direction as i64;
        numbers[at + 2] = field.null_order as i64;
    }
    List::of_numbers(SORTED_FIELDS, numbers, SORT_FIELDS, count)
}

// id; fields
pub fn sort_order(order: SortOrder) -> Card {
    Card::of_number(order.order_id.0).with_list(sort_fields(order))
}

// id; fields
pub fn partition_spec(spec: PartitionSpec) -> Card {
    let fields = spec.items;
    Card::of_number(wide(spec.spec_id.0)).with_list(List::of_partitions(fields, spec.count))
}

// version; uuid
pub fn identity(fields: SingleFields) -> Card {
    let uuid = fields.table_uuid;
    Card::of_number(fields.format_version as i64).with_text(text_of(&uuid, 16))
}

// location; last update, last sequence number, last column id, has_current, current snapshot, current schema, default order; next row id
pub fn single_fields(fields: SingleFields) -> Card {
    let numbers = Card::of_numbers(
        [
            fields.last_updated_ms.0,
            fields.last_sequence_number.0,
            wide(fields.last_column_id.0),
            fields.has_current as i64,
            fields.current_snapshot_id.0,
            wide(fields.current_schema_id.0),
            fields.default_sort_order_id.0,
            0,
        ],
        [fields.next_row_id.0, 0],
    );
    numbers.with_text(location(fields.location))
}
