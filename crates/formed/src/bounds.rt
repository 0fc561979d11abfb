// Numbers within their bounds.
// Kept: a function for each kind of number; each is one comparison, and one for all of them would need a trait and an `impl` for each.
#![tactic(auto, using(crate::proofs::Signs::at_least_zero, crate::proofs::Signs::behind_flag))]

ghost use Rattle.std.specs.Prelude.{◌≡◌};
ghost use Rattle.std.specs.Int.Signed.{non_neg};
ghost use Rattle.rules.specs.Words.{if_some};
ghost use Rattle.rules.specs.WellFormed.{at_least_one, choice_formed};
ghost use Rattle.rules.specs.Layout.{given};

use records::counters::{
    Age, Buckets, FieldId, FileSize, MinSnapshots, SchemaId, SequenceNumber, SnapshotId,
    SortOrderId, SpecId,
};

pub fn snapshot_id_formed(x: SnapshotId) -> bool
    ensures { result ≡ non_neg x.0 }
{
    x.0 >= 0
}

pub fn schema_id_formed(x: SchemaId) -> bool
    ensures { result ≡ non_neg x.0 }
{
    x.0 >= 0
}

pub fn order_id_formed(x: SortOrderId) -> bool
    ensures { result ≡ non_neg x.0 }
{
    x.0 >= 0
}

pub fn spec_id_formed(x: SpecId) -> bool
    ensures { result ≡ non_neg x.0 }
{
    x.0 >= 0
}

// 0 where no partition field has got an id yet.
pub fn last_partition_formed(x: FieldId) -> bool
    ensures { result ≡ non_neg x.0 }
{
    x.0 >= 0
}

pub fn sequence_formed(x: SequenceNumber) -> bool
    ensures { result ≡ non_neg x.0 }
{
    x.0 >= 0
}

pub fn file_size_formed(x: FileSize) -> bool
    ensures { result ≡ non_neg x.0 }
{
    x.0 >= 0
}

pub fn field_id_formed(x: FieldId) -> bool
    ensures { result ≡ at_least_one x.0 }
{
    x.0 >= 1
}

pub fn buckets_formed(x: Buckets) -> bool
    ensures { result ≡ at_least_one x.0 }
{
    x.0 >= 1
}

// An id, or -1 for the one last added.
pub fn schema_choice_formed(x: SchemaId) -> bool
    ensures { result ≡ choice_formed x.0 }
{
    x.0 >= -1
}

pub fn order_choice_formed(x: SortOrderId) -> bool
    ensures { result ≡ choice_formed x.0 }
{
    x.0 >= -1
}

pub fn spec_choice_formed(x: SpecId) -> bool
    ensures { result ≡ choice_formed x.0 }
{
    x.0 >= -1
}

// At least 1, where the flag is set.
pub fn age_formed(has: bool, x: Age) -> bool
    ensures { result ≡ if_some at_least_one (given has x.0) }
{
    !has | (x.0 >= 1)
}

pub fn partition_id_formed(has: bool, x: FieldId) -> bool
    ensures { result ≡ if_some at_least_one (given has x.0) }
{
    !has | (x.0 >= 1)
}

pub fn min_formed(has: bool, x: MinSnapshots) -> bool
    ensures { result ≡ if_some at_least_one (given has x.0) }
{
    !has | (x.0 >= 1)
}
