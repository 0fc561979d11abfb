// Records compared whole, field by field: also what stands behind a flag that is not set, and in slots past a count.
ghost use Rattle.std.specs.Prelude.{◌≡◌};
ghost use Rattle.equality.specs.Same.{same_snapshot, same_log_entry, same_reference, same_ref, same_file_entry, same_schema, same_sort_order, same_partition_spec, same_statistics_file};

use records::metadata::MetadataLogEntry;
use records::partition::PartitionSpec;
use records::reference::{NamedRef, SnapshotReference};
use records::schema::Schema;
use records::snapshot::{Snapshot, SnapshotLogEntry};
use records::sort_order::SortOrder;
use records::statistics::StatisticsFile;

#[tactic(auto, using(crate::proofs::Derived::snapshot))]
pub fn same_snapshot(a: Snapshot, b: Snapshot) -> bool
    ensures { result ≡ same_snapshot a b }
{
    a == b
}

#[tactic(auto, using(crate::proofs::Derived::log_entry))]
pub fn same_log_entry(a: SnapshotLogEntry, b: SnapshotLogEntry) -> bool
    ensures { result ≡ same_log_entry a b }
{
    a == b
}

#[tactic(auto, using(crate::proofs::Derived::reference))]
pub fn same_reference(a: SnapshotReference, b: SnapshotReference) -> bool
    ensures { result ≡ same_reference a b }
{
    a == b
}

#[tactic(auto, using(crate::proofs::Derived::named_ref))]
pub fn same_ref(a: NamedRef, b: NamedRef) -> bool
    ensures { result ≡ same_ref a b }
{
    a == b
}

#[tactic(auto, using(crate::proofs::Derived::file_entry))]
pub fn same_file_entry(a: MetadataLogEntry, b: MetadataLogEntry) -> bool
    ensures { result ≡ same_file_entry a b }
{
    a == b
}

pub fn same_schema(a: Schema, b: Schema) -> bool
    ensures { result ≡ same_schema a b }
{
    a == b
}

pub fn same_sort_order(a: SortOrder, b: SortOrder) -> bool
    ensures { result ≡ same_sort_order a b }
{
    a == b
}

pub fn same_partition_spec(a: PartitionSpec, b: PartitionSpec) -> bool
    ensures { result ≡ same_partition_spec a b }
{
    a == b
}

#[tactic(auto, using(crate::proofs::Derived::statistics_file))]
pub fn same_statistics_file(a: StatisticsFile, b: StatisticsFile) -> bool
    ensures { result ≡ same_statistics_file a b }
{
    a == b
}
