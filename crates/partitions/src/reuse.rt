// The ids that an offered spec reuses: those of held fields with the same source and transform.
ghost use Rattle.std.specs.Prelude.{◌≡◌, cond};
ghost use Rattle.std.proofs.Math.Option.{none};
ghost use Rattle.rules.specs.Words.{lesser, smallest};
ghost use Rattle.rules.specs.SpecUpdates.{is_like, like_ids, fields_of_all, with_field_id, given_or_reused, reusing};
ghost use Rattle.rules.specs.Layout.{read_partition_field, laid_partition_field, read_partition_spec, laid_partition_spec, read_partition_specs};
ghost use Rattle.tables.specs.Laid.{LaidSpec, LaidSpecs};
ghost use Rattle.partitions.specs.Options.{read_id};
ghost use Rattle.partitions.specs.Slots.{LaidField};

use crate::pairs::is_like;
use crate::slots::{fields_of, specs_of};
use records::counters::FieldId;
use records::partition::{PartitionField, PartitionSpec, PartitionSpecs};

// The smaller id, where both are there.
fn smaller(a: Option<FieldId>, b: Option<FieldId>) -> Option<FieldId>
    ensures { read_id result ≡ lesser (read_id a) (read_id b) }
{
    match (a, b) {
        (Some(x), Some(y)) => Some(x.min(y)),
        (None, _) => b,
        (_, None) => a,
    }
}

// What one held field gives.
fn id_of(f: PartitionField, old: PartitionField) -> Option<FieldId>
    ensures { read_id result ≡ cond (is_like (read_partition_field f) (read_partition_field old)) (read_partition_field old).id none }
{
    if old.has_id && is_like(f, old) {
        return Some(old.field_id);
    }
    None
}

#[tactic(auto, using(crate::proofs::Smallest::lesser_alone))]
fn smallest_in(spec: PartitionSpec, f: PartitionField) -> Option<FieldId>
    requires { LaidSpec spec }
    ensures { read_id result ≡ smallest (like_ids (read_partition_spec spec).fields (read_partition_field f)) }
{
    let mut best = None;
    for old in fields_of(&spec) {
        best = smaller(best, id_of(f, *old));
    }
    best
}

#[tactic(auto, using(crate::proofs::Smallest::lesser_alone))]
fn smallest_like(t: PartitionSpecs, f: PartitionField) -> Option<FieldId>
    requires { LaidSpecs t }
    ensures { read_id result ≡ smallest (like_ids (fields_of_all (read_partition_specs t)) (read_partition_field f)) }
{
    let mut best = None;
    for spec in specs_of(&t) {
        best = smaller(best, smallest_in(*spec, f));
    }
    best
}

// A field that gives its id keeps it; another takes the smallest that there is.
fn reuse_field_id(t: PartitionSpecs, f: PartitionField) -> PartitionField
    requires laid_specs { LaidSpecs t }
    requires laid_field { LaidField f }
    ensures { result ≡ laid_partition_field (with_field_id (given_or_reused (fields_of_all (read_partition_specs t)) (read_partition_field f)) (read_partition_field f)) }
{
    if f.has_id {
        return f;
    }
    match smallest_like(t, f) {
        Some(field_id) => PartitionField {
            field_id,
            has_id: true,
            ..f
        },
        None => f,
    }
}

pub fn reuse_partition_field_ids(t: PartitionSpecs, s: PartitionSpec) -> PartitionSpec
    requires laid_specs { LaidSpecs t }
    requires laid_spec { LaidSpec s }
    ensures { result ≡ laid_partition_spec (reusing (read_partition_specs t) (read_partition_spec s)) }
{
    let fields = fields_of(&s);
    let mut items = s.items;
    for (i, field) in fields.iter().enumerate() {
        items[i] = reuse_field_id(t, *field);
    }
    PartitionSpec { items, ..s }
}
