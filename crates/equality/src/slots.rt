// The first fields of two schemas, of two sort orders and of two partition specs, compared slot by slot.
ghost use Rattle.std.specs.Prelude.{◌≡◌, ◌≤◌, take};
ghost use Rattle.rules.specs.Words.{same_list};
ghost use Rattle.rules.specs.Capacities.{schema_field_room, sort_field_room, partition_field_room};
ghost use Rattle.equality.specs.Same.{same_schema_field, same_sort_field, same_partition_field, alike_partition};

use records::partition::{PartitionField, PartitionSpec};
use records::schema::{Schema, SchemaField};
use records::sort_order::{SortField, SortOrder};

#[tactic(auto, using(crate::proofs::Derived::schema_field))]
pub fn same_schema_field(a: SchemaField, b: SchemaField) -> bool
    ensures { result ≡ same_schema_field a b }
{
    a == b
}

pub fn same_fields(a: Schema, b: Schema, n: usize) -> bool
    requires { n ≤ schema_field_room }
    ensures { result ≡ same_list same_schema_field (take n a.items) (take n b.items) }
{
    a.items[..n] == b.items[..n]
}

// Written out, as the edit of it in must-fail/ asks: so code and definition can be changed alike.
#[tactic(auto, using(crate::proofs::Derived::numbers), unfolding(crate::specs::Same::same_sort_field))]
pub fn same_sort_field(a: SortField, b: SortField) -> bool
    ensures { result ≡ same_sort_field a b }
{
    (a.source_id == b.source_id) & (a.direction == b.direction) & (a.null_order == b.null_order)
}

pub fn same_sort_fields(a: SortOrder, b: SortOrder, n: usize) -> bool
    requires { n ≤ sort_field_room }
    ensures { result ≡ same_list same_sort_field (take n a.items) (take n b.items) }
{
    for (x, y) in a.items[..n].iter().zip(&b.items[..n]) {
        if !same_sort_field(*x, *y) {
            return false;
        }
    }
    true
}

#[tactic(auto, using(crate::proofs::Derived::partition_field))]
pub fn same_partition_field(a: PartitionField, b: PartitionField) -> bool
    ensures { result ≡ same_partition_field a b }
{
    a == b
}

pub fn same_partition_fields(a: PartitionSpec, b: PartitionSpec, n: usize) -> bool
    requires { n ≤ partition_field_room }
    ensures { result ≡ same_list same_partition_field (take n a.items) (take n b.items) }
{
    a.items[..n] == b.items[..n]
}

// The fields but for their ids.
#[tactic(auto, using(crate::proofs::Derived::numbers, crate::proofs::Derived::name), unfolding(crate::specs::Same::alike_partition))]
pub fn alike_partition(a: PartitionField, b: PartitionField) -> bool
    ensures { result ≡ alike_partition a b }
{
    (a.source_id == b.source_id)
        & ((a.transform == b.transform) & (a.buckets == b.buckets))
        & (a.name == b.name)
}

pub fn alike_partitions(a: PartitionSpec, b: PartitionSpec, n: usize) -> bool
    requires { n ≤ partition_field_room }
    ensures { result ≡ same_list alike_partition (take n a.items) (take n b.items) }
{
    for (x, y) in a.items[..n].iter().zip(&b.items[..n]) {
        if !alike_partition(*x, *y) {
            return false;
        }
    }
    true
}
