// The parts of an update, each named for the part of the metadata that it is about.
ghost use Rattle.std.specs.Prelude.{◌≡◌};
ghost use Rattle.records.specs.Blanks.{no_fields_part, no_snapshots_part, no_refs_part, no_schemas_part, no_sort_orders_part, no_statistics_part, no_partition_specs_part};

use crate::counters::{SchemaId, SnapshotId, SortOrderId, SpecId};
use crate::partition::{SpecIds, SpecOffer};
use crate::reference::SnapshotReference;
use crate::schema::{SchemaIds, SchemaOffer};
use crate::snapshot::{Snapshot, SnapshotIds};
use crate::sort_order::SortOrder;
use crate::statistics::StatisticsFile;
use crate::text::{Name, Text};

#[derive(Clone, Copy, PartialEq, Eq)]
pub struct FieldsPart {
    pub uuid: [u8; 16],
    pub format_version: u8,
    pub location: Text,
}

#[derive(Clone, Copy, PartialEq, Eq)]
pub struct SnapshotsPart {
    pub added: Snapshot,
    pub removed: SnapshotIds,
}

// A ref has no owner here: the one that it gets is the office of the run.
#[derive(Clone, Copy, PartialEq, Eq)]
pub struct RefsPart {
    pub name: Name,
    pub reference: SnapshotReference,
}

#[derive(Clone, Copy, PartialEq, Eq)]
pub struct SchemasPart {
    pub added: SchemaOffer,
    pub chosen: SchemaId,
    pub removed: SchemaIds,
}

#[derive(Clone, Copy, PartialEq, Eq)]
pub struct SortOrdersPart {
    pub added: SortOrder,
    pub chosen: SortOrderId,
}

// The file that is set, or the snapshot whose file is removed.
#[derive(Clone, Copy, PartialEq, Eq)]
pub struct StatisticsPart {
    pub file: StatisticsFile,
    pub removed: SnapshotId,
}

#[derive(Clone, Copy, PartialEq, Eq)]
pub struct PartitionSpecsPart {
    pub added: SpecOffer,
    pub chosen: SpecId,
    pub removed: SpecIds,
}

impl FieldsPart {
    pub fn blank() -> FieldsPart
        ensures { result ≡ no_fields_part }
    {
        let location = Text::blank();
        FieldsPart {
            uuid: [0; 16],
            format_version: 0,
            location,
        }
    }
}

impl SnapshotsPart {
    pub fn blank() -> SnapshotsPart
        ensures { result ≡ no_snapshots_part }
    {
        let added = Snapshot::blank();
        let removed = SnapshotIds::blank();
        SnapshotsPart { added, removed }
    }
}

impl RefsPart {
    pub fn blank() -> RefsPart
        ensures { result ≡ no_refs_part }
    {
        let name = Name::blank();
        let reference = SnapshotReference::blank();
        RefsPart { name, reference }
    }
}

impl SchemasPart {
    pub fn blank() -> SchemasPart
        ensures { result ≡ no_schemas_part }
    {
        let added = SchemaOffer::blank();
        let removed = SchemaIds::blank();
        SchemasPart {
            added,
            chosen: SchemaId(0),
            removed,
        }
    }
}

impl SortOrdersPart {
    pub fn blank() -> SortOrdersPart
        ensures { result ≡ no_sort_orders_part }
    {
        let added = SortOrder::blank();
        SortOrdersPart {
            added,
            chosen: SortOrderId(0),
        }
    }
}

impl StatisticsPart {
    pub fn blank() -> StatisticsPart
        ensures { result ≡ no_statistics_part }
    {
        let file = StatisticsFile::blank();
        StatisticsPart {
            file,
            removed: SnapshotId(0),
        }
    }
}

impl PartitionSpecsPart {
    pub fn blank() -> PartitionSpecsPart
        ensures { result ≡ no_partition_specs_part }
    {
        let added = SpecOffer::blank();
        let removed = SpecIds::blank();
        PartitionSpecsPart {
            added,
            chosen: SpecId(0),
            removed,
        }
    }
}
