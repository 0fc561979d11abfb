// Two partition fields.
ghost use Rattle.std.specs.Prelude.{◌≡◌};
ghost use Rattle.rules.specs.Partitions.{is_time, same_transform, is_redundant};
ghost use Rattle.rules.specs.SpecUpdates.{is_like};
ghost use Rattle.rules.specs.Layout.{read_partition_field};

use records::partition::{DAY, PartitionField, YEAR};

// One of year, month and day.
pub fn is_time(t: u8) -> bool
    ensures { result ≡ is_time t }
{
    YEAR <= t && t <= DAY
}

fn same_transform(a: PartitionField, b: PartitionField) -> bool
    ensures { result ≡ same_transform (read_partition_field a) (read_partition_field b) }
{
    a.transform == b.transform && a.buckets == b.buckets
}

// Of two fields of one spec one is redundant: they have one source, and their transforms are equal or both of year, month and day.
#[tactic(auto, unfolding(rules::specs::Partitions::is_redundant))]
pub fn is_redundant(a: PartitionField, b: PartitionField) -> bool
    ensures { result ≡ is_redundant (read_partition_field a) (read_partition_field b) }
{
    a.source_id == b.source_id
        && (same_transform(a, b) || (is_time(a.transform) && is_time(b.transform)))
}

// An old field has the source and the transform of this one.
pub fn is_like(f: PartitionField, old: PartitionField) -> bool
    ensures { result ≡ is_like (read_partition_field f) (read_partition_field old) }
{
    old.source_id == f.source_id && same_transform(old, f)
}
