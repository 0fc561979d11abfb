// The table's metadata: its single fields, and nine tables.
ghost use Rattle.std.specs.Prelude.{◌≡◌};
ghost use Rattle.records.specs.Blanks.{no_metadata_log_entry, no_metadata_log, no_fields, no_metadata};

use crate::capacities::METADATA_LOG;
use crate::counters::{
    FieldId, RowId, SchemaId, SequenceNumber, SnapshotId, SortOrderId, SpecId, Time,
};
use crate::partition::PartitionSpecs;
use crate::reference::Refs;
use crate::schema::Schemas;
use crate::snapshot::{SnapshotLog, Snapshots};
use crate::sort_order::SortOrders;
use crate::statistics::StatisticsFiles;
use crate::text::Text;

#[derive(Clone, Copy, PartialEq, Eq)]
pub struct MetadataLogEntry {
    pub metadata_file: Text,
    pub timestamp_ms: Time,
}

// In history order. The log starts as a blank entry repeated; counted entries are placed first.
#[derive(Clone, Copy, PartialEq, Eq)]
pub struct MetadataLog {
    pub items: [MetadataLogEntry; METADATA_LOG],
    pub count: usize,
}

// Last column id and last partition id are field ids. The current snapshot behind a flag that is not set is 0.
#[derive(Clone, Copy, PartialEq, Eq)]
pub struct SingleFields {
    pub format_version: u8,
    pub table_uuid: [u8; 16],
    pub location: Text,
    pub last_updated_ms: Time,
    pub last_sequence_number: SequenceNumber,
    pub next_row_id: RowId,
    pub last_column_id: FieldId,
    pub has_current: bool,
    pub current_snapshot_id: SnapshotId,
    pub current_schema_id: SchemaId,
    pub default_sort_order_id: SortOrderId,
    pub default_spec_id: SpecId,
    pub last_partition_id: FieldId,
}

#[derive(Clone, Copy, PartialEq, Eq)]
pub struct TableMetadata {
    pub fields: SingleFields,
    pub snapshots: Snapshots,
    pub refs: Refs,
    pub snapshot_log: SnapshotLog,
    pub metadata_log: MetadataLog,
    pub schemas: Schemas,
    pub sort_orders: SortOrders,
    pub statistics: StatisticsFiles,
    pub partition_statistics: StatisticsFiles,
    pub partition_specs: PartitionSpecs,
}

impl MetadataLogEntry {
    pub fn blank() -> MetadataLogEntry
        ensures { result ≡ no_metadata_log_entry }
    {
        let metadata_file = Text::blank();
        MetadataLogEntry {
            metadata_file,
            timestamp_ms: Time(0),
        }
    }
}

impl MetadataLog {
    pub fn blank() -> MetadataLog
        ensures { result ≡ no_metadata_log }
    {
        let none = MetadataLogEntry::blank();
        let items = [none; METADATA_LOG];
        MetadataLog { items, count: 0 }
    }
}

impl SingleFields {
    pub fn blank() -> SingleFields
        ensures { result ≡ no_fields }
    {
        let location = Text::blank();
        SingleFields {
            format_version: 0,
            table_uuid: [0; 16],
            location,
            last_updated_ms: Time(0),
            last_sequence_number: SequenceNumber(0),
            next_row_id: RowId(0),
            last_column_id: FieldId(0),
            has_current: false,
            current_snapshot_id: SnapshotId(0),
            current_schema_id: SchemaId(0),
            default_sort_order_id: SortOrderId(0),
            default_spec_id: SpecId(0),
            last_partition_id: FieldId(0),
        }
    }
}

impl TableMetadata {
    pub fn blank() -> TableMetadata
        ensures { result ≡ no_metadata }
    {
        let fields = SingleFields::blank();
        let snapshots = Snapshots::blank();
        let refs = Refs::blank();
        let snapshot_log = SnapshotLog::blank();
        let metadata_log = MetadataLog::blank();
        let schemas = Schemas::blank();
        let sort_orders = SortOrders::blank();
        let statistics = StatisticsFiles::blank();
        let partition_statistics = StatisticsFiles::blank();
        let partition_specs = PartitionSpecs::blank();
        TableMetadata {
            fields,
            snapshots,
            refs,
            snapshot_log,
            metadata_log,
            schemas,
            sort_orders,
            statistics,
            partition_statistics,
            partition_specs,
        }
    }
}
