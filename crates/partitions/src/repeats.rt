// What stands twice in a spec: a name, an id, or a source with transforms of which one is enough.
ghost use Rattle.std.specs.Prelude.{◌≡◌, Bool, map};
ghost use Rattle.rules.specs.Register as plain;
ghost use Rattle.rules.specs.Words.{same_bytes, unequal_by, unequal};
ghost use Rattle.rules.specs.Partitions.{is_redundant, partition_names, partition_ids};
ghost use Rattle.rules.specs.SpecUpdates.{is_repeating};
ghost use Rattle.rules.specs.Layout.{read_partition_field, read_partition_spec};
ghost use Rattle.tables.specs.Laid.{LaidSpec};
ghost use Rattle.partitions.specs.Ids.{same_id};
ghost use Rattle.partitions.specs.Slots.{LaidFields, Told};

use crate::pairs::is_redundant;
use crate::slots::fields_of;
use equality::text::same_name;
use records::partition::{PartitionField, PartitionSpec};

// Of no two fields the test holds.
fn none_alike<F: Fn(PartitionField, PartitionField) -> bool>(
    fields: &[PartitionField],
    alike: F,
) -> bool
    requires laid_fields { LaidFields fields.now }
    requires callable { F.IsAlwaysCallable alike }
    ensures { (same : plain.PartitionField → plain.PartitionField → Bool) → Told (F.post alike) same → result ≡ unequal_by same (map read_partition_field fields.now) }
{
    for (i, x) in fields.iter().enumerate() {
        for y in &fields[i + 1..] {
            if alike(*x, *y) {
                return false;
            }
        }
    }
    true
}

// No name stands twice.
pub fn names_differ(p: PartitionSpec) -> bool
    requires { LaidSpec p }
    ensures { result ≡ unequal_by same_bytes (partition_names (read_partition_spec p)) }
{
    none_alike(fields_of(&p), |a, b| same_name(a.name, b.name))
}

// Both have an id, and it is one.
fn same_id(a: PartitionField, b: PartitionField) -> bool
    ensures { result ≡ same_id (read_partition_field a) (read_partition_field b) }
{
    a.has_id && b.has_id && a.field_id == b.field_id
}

// No id stands twice.
pub fn ids_differ(p: PartitionSpec) -> bool
    requires { LaidSpec p }
    ensures { result ≡ unequal (partition_ids (read_partition_spec p)) }
{
    none_alike(fields_of(&p), |a, b| same_id(a, b))
}

// Of no two fields one is redundant.
pub fn none_redundant(p: PartitionSpec) -> bool
    requires { LaidSpec p }
    ensures { result ≡ unequal_by is_redundant (read_partition_spec p).fields }
{
    none_alike(fields_of(&p), |a, b| is_redundant(a, b))
}

#[tactic(auto, unfolding(rules::specs::SpecUpdates::is_repeating))]
pub fn is_repeating(p: PartitionSpec) -> bool
    requires { LaidSpec p }
    ensures { result ≡ is_repeating (read_partition_spec p) }
{
    !names_differ(p) || !none_redundant(p) || !ids_differ(p)
}
