// Metadata and its log.
use crate::partition::unpartitioned;
use crate::reference::read_refs;
use crate::schema::read_schemas;
use crate::snapshot::{read_snapshot_log, read_snapshots};
use crate::sort_order::read_sort_orders;
use crate::text::{read_text, read_uuid};
use cards::partition::UNPARTITIONED_LAST_ASSIGNED_ID;
use records::capacities::METADATA_LOG;
use records::counters::{
    FieldId, RowId, SchemaId, SequenceNumber, SnapshotId, SortOrderId, SpecId, Time,
};
use records::metadata::{MetadataLog, MetadataLogEntry, SingleFields, TableMetadata};
use records::statistics::StatisticsFiles;
use tokens::field::{read_count, read_flag, read_i32, read_i64, read_u8, read_u64};
use tokens::input::Input;

fn read_log_entry(input: &mut Input) -> MetadataLogEntry {
    let metadata_file = read_text(input);
    let timestamp_ms = read_i64(input);
    MetadataLogEntry {
        metadata_file,
        timestamp_ms: Time(timestamp_ms),
    }
}

fn read_metadata_log(input: &mut Input) -> MetadataLog {
    let mut log = MetadataLog::blank();
    let count = read_count(input);
    for i in 0..count {
        if !input.is_good() {
            break;
        }
        let entry = read_log_entry(input);
        if i < METADATA_LOG {
            log.items[i] = entry;
        }
    }
    log.count = count;
    log
}

// The single fields between the version and the tables. The ids of the current schema and the default order come after their tables, and
// are 0 here. What goes with the partition specs stands elsewhere, and is the usual here.
fn read_fields(format_version: u8, input: &mut Input) -> SingleFields {
    let table_uuid = read_uuid(input);
    let location = read_text(input);
    let last_updated_ms = read_i64(input);
    let last_sequence_number = read_i64(input);
    let next_row_id = read_u64(input);
    let last_column_id = read_i32(input);
    let has_current = read_flag(input);
    let current_snapshot_id = read_i64(input);
    SingleFields {
        format_version,
        table_uuid,
        location,
        last_updated_ms: Time(last_updated_ms),
        last_sequence_number: SequenceNumber(last_sequence_number),
        next_row_id: RowId(next_row_id),
        last_column_id: FieldId(last_column_id),
        has_current,
        current_snapshot_id: SnapshotId(current_snapshot_id),
        current_schema_id: SchemaId(0),
        default_sort_order_id: SortOrderId(0),
        default_spec_id: SpecId(0),
        last_partition_id: FieldId(UNPARTITIONED_LAST_ASSIGNED_ID),
    }
}

// Metadata of this format version, which is read already. The tables of statistics files and of partition specs stand elsewhere: here the first
// are empty, and the other is the usual one.
pub fn read_metadata_of(version: u8, input: &mut Input) -> TableMetadata {
    let mut fields = read_fields(version, input);
    let snapshots = read_snapshots(input);
    let refs = read_refs(input);
    let snapshot_log = read_snapshot_log(input);
    let metadata_log = read_metadata_log(input);
    let schemas = read_schemas(false, input);
    let current_schema_id = SchemaId(read_i32(input));
    let sort_orders = read_sort_orders(input);
    let default_sort_order_id = SortOrderId(read_i64(input));
    let statistics = StatisticsFiles::blank();
    let partition_statistics = StatisticsFiles::blank();
    let partition_specs = unpartitioned();
    fields.current_schema_id = current_schema_id;
    fields.default_sort_order_id = default_sort_order_id;
    TableMetadata {
        fields,
        snapshots,
        refs,
        snapshot_log,
        metadata_log,
        schemas,
        sort_orders,
        statistics,
        partition_statistics,
        partition_specs,
    }
}

pub fn read_metadata(input: &mut Input) -> TableMetadata {
    let version = read_u8(input);
    read_metadata_of(version, input)
}
