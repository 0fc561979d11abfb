// The numbers of the records, each as one that can be put.
ghost use Rattle.std.specs.Prelude.{◌≡◌, pos};
ghost use Rattle.rules.specs.Words.{or_else};
ghost use Rattle.rules.specs.Layout.{read_partition_field};

use file_text::numbers::Number;
use records::counters::{
    Age, Buckets, FieldId, FileSize, MinSnapshots, SchemaId, SequenceNumber, SnapshotId,
    SortOrderId, SpecId, Time,
};
use records::partition::PartitionField;

pub fn of_snapshot(x: SnapshotId) -> Number
    ensures { result.0 ≡ x.0 }
{
    Number(x.0)
}

pub fn of_schema(x: SchemaId) -> Number
    ensures { result.0 ≡ x.0 }
{
    Number(i64::from(x.0))
}

pub fn of_field(x: FieldId) -> Number
    ensures { result.0 ≡ x.0 }
{
    Number(i64::from(x.0))
}

pub fn of_order(x: SortOrderId) -> Number
    ensures { result.0 ≡ x.0 }
{
    Number(x.0)
}

pub fn of_spec(x: SpecId) -> Number
    ensures { result.0 ≡ x.0 }
{
    Number(i64::from(x.0))
}

pub fn of_buckets(x: Buckets) -> Number
    ensures { result.0 ≡ x.0 }
{
    Number(i64::from(x.0))
}

pub fn of_time(x: Time) -> Number
    ensures { result.0 ≡ x.0 }
{
    Number(x.0)
}

pub fn of_age(x: Age) -> Number
    ensures { result.0 ≡ x.0 }
{
    Number(x.0)
}

pub fn of_size(x: FileSize) -> Number
    ensures { result.0 ≡ x.0 }
{
    Number(x.0)
}

pub fn of_min(x: MinSnapshots) -> Number
    ensures { result.0 ≡ x.0 }
{
    Number(i64::from(x.0))
}

pub fn of_sequence(x: SequenceNumber) -> Number
    ensures { result.0 ≡ x.0 }
{
    Number(x.0)
}

// The id of a partition field; 0 where it has none.
pub fn of_held_field(f: PartitionField) -> Number
    ensures { result.0 ≡ or_else (read_partition_field f).id (pos 0) }
{
    if f.has_id {
        return of_field(f.field_id);
    }
    Number(0)
}
