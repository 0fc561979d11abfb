// The single fields of a metadata file.
ghost use Rattle.std.specs.Prelude.{◌≡◌, cond, ltb, pos};
ghost use Rattle.rules.specs.Layout.{laid_fields};
ghost use Rattle.file_records.specs.Decoded.{natural_at, or_zero_at, current_schema_in, default_spec_in, fields_in};

use crate::current_snapshot::current;
use crate::offsets::{
    CURRENT_SCHEMA_ID, DEFAULT_SORT_ORDER_ID, DEFAULT_SPEC_ID, LAST_COLUMN_ID,
    LAST_SEQUENCE_NUMBER, LAST_UPDATED_MS, LOCATION, NEXT_ROW_ID, PARTITION_SPECS, SCHEMA_ID,
    SCHEMAS, SINGLE_SCHEMA, TABLE_UUID,
};
use crate::partition::last_partition;
use crate::table::single_decides;
use crate::text::{text_at, uuid_at};
use crate::value::{Cells, narrow_number, natural, number};
use records::counters::{
    FieldId, RowId, SchemaId, SequenceNumber, SnapshotId, SortOrderId, SpecId, Time,
};
use records::metadata::SingleFields;

// Version 1 has no sequence numbers.
fn last_sequence(version: usize, bytes: &[u8], cells: &Cells) -> SequenceNumber
    ensures { result.0 ≡ cond (ltb 1 version) (or_zero_at bytes.now cells.now 6) (pos 0) }
{
    if version > 1 {
        let z = number(bytes, cells, LAST_SEQUENCE_NUMBER);
        return SequenceNumber(z.0);
    }
    SequenceNumber(0)
}

// Row ids come with version 3.
fn next_row(version: usize, cells: &Cells) -> RowId
    ensures { result.0 ≡ cond (ltb 2 version) (natural_at cells.now 9045) 0 }
{
    if version > 2 {
        return RowId(natural(cells, NEXT_ROW_ID));
    }
    RowId(0)
}

fn current_schema(version: usize, bytes: &[u8], cells: &Cells) -> SchemaId
    ensures { result.0 ≡ current_schema_in bytes.now cells.now version }
{
    if single_decides(version, cells, SCHEMAS, CURRENT_SCHEMA_ID) {
        let single = narrow_number(bytes, cells, SINGLE_SCHEMA + SCHEMA_ID);
        return SchemaId(single.0);
    }
    let z = narrow_number(bytes, cells, CURRENT_SCHEMA_ID);
    SchemaId(z.0)
}

fn default_spec(version: usize, bytes: &[u8], cells: &Cells) -> SpecId
    ensures { result.0 ≡ default_spec_in bytes.now cells.now version }
{
    if single_decides(version, cells, PARTITION_SPECS, DEFAULT_SPEC_ID) {
        return SpecId(0);
    }
    let z = narrow_number(bytes, cells, DEFAULT_SPEC_ID);
    SpecId(z.0)
}

pub fn fields_of(version: usize, bytes: &[u8], cells: &Cells) -> SingleFields
    ensures { result ≡ laid_fields (fields_in bytes.now cells.now version) }
{
    let snapshot = current(bytes, cells);
    SingleFields {
        format_version: (version % 256) as u8,
        table_uuid: uuid_at(bytes, cells, TABLE_UUID),
        location: text_at(bytes, cells, LOCATION),
        last_updated_ms: Time(number(bytes, cells, LAST_UPDATED_MS).0),
        last_sequence_number: last_sequence(version, bytes, cells),
        next_row_id: next_row(version, cells),
        last_column_id: FieldId(narrow_number(bytes, cells, LAST_COLUMN_ID).0),
        has_current: snapshot.is_some(),
        current_snapshot_id: snapshot.unwrap_or(SnapshotId(0)),
        current_schema_id: current_schema(version, bytes, cells),
        default_sort_order_id: SortOrderId(number(bytes, cells, DEFAULT_SORT_ORDER_ID).0),
        default_spec_id: default_spec(version, bytes, cells),
        last_partition_id: last_partition(version, bytes, cells),
    }
}
