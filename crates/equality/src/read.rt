// Records compared as the rules read them: a number behind a flag that is not set does not count, nor does a field past the count.
ghost use Rattle.std.specs.Prelude.{◌≡◌, ◌≤◌};
ghost use Rattle.rules.specs.Words.{same_list};
ghost use Rattle.rules.specs.Capacities.{schema_field_room, sort_field_room, partition_field_room};
ghost use Rattle.rules.specs.RefUpdates.{same_reference};
ghost use Rattle.rules.specs.SchemaUpdates.{same_schema_field};
ghost use Rattle.rules.specs.OrderUpdates.{same_sort_field};
ghost use Rattle.rules.specs.Partitions.{same_partition};
ghost use Rattle.rules.specs.Layout.{read_reference, read_schema, laid_schema, read_sort_order, read_partition_spec, laid_partition_spec};

use crate::slots;
use records::partition::PartitionSpec;
use records::reference::SnapshotReference;
use records::schema::Schema;
use records::sort_order::SortOrder;

pub fn same_reference(a: SnapshotReference, b: SnapshotReference) -> bool
    ensures { result ≡ same_reference (read_reference a) (read_reference b) }
{
    (a.snapshot_id == b.snapshot_id)
        & (a.kind == b.kind)
        & ((a.has_min == b.has_min)
            & (!a.has_min | (a.min_snapshots_to_keep == b.min_snapshots_to_keep)))
        & ((a.has_age == b.has_age)
            & (!a.has_age | (a.max_snapshot_age_ms == b.max_snapshot_age_ms)))
        & ((a.has_ref_age == b.has_ref_age)
            & (!a.has_ref_age | (a.max_ref_age_ms == b.max_ref_age_ms)))
}

// As many fields, the same one by one. Of schemas that are laid out each field is what is read of it.
pub fn same_fields(a: Schema, b: Schema) -> bool
    requires a_value { (laid_schema (read_schema a) ≡ a) × (a.count ≤ schema_field_room) }
    requires b_value { (laid_schema (read_schema b) ≡ b) × (b.count ≤ schema_field_room) }
    ensures { result ≡ same_list same_schema_field (read_schema a).fields (read_schema b).fields }
{
    (a.count == b.count) && slots::same_fields(a, b, a.count)
}

pub fn same_sort_fields(a: SortOrder, b: SortOrder) -> bool
    requires count_le_sort_field_room { a.count ≤ sort_field_room }
    requires count_le_sort_field_room_2 { b.count ≤ sort_field_room }
    ensures { result ≡ same_list same_sort_field (read_sort_order a).fields (read_sort_order b).fields }
{
    (a.count == b.count) && slots::same_sort_fields(a, b, a.count)
}

// As many fields, the same one by one but for their ids.
pub fn same_partition_fields(a: PartitionSpec, b: PartitionSpec) -> bool
    requires a_value { (laid_partition_spec (read_partition_spec a) ≡ a) × (a.count ≤ partition_field_room) }
    requires b_value { (laid_partition_spec (read_partition_spec b) ≡ b) × (b.count ≤ partition_field_room) }
    ensures { result ≡ same_list same_partition (read_partition_spec a).fields (read_partition_spec b).fields }
{
    (a.count == b.count) && slots::alike_partitions(a, b, a.count)
}
