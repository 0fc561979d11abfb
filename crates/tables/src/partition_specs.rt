// The table of partition specs.
ghost use Rattle.std.specs.Prelude.{◌≡◌, ℕ, true, not, pos, get_or};
ghost use Rattle.std.proofs.Math.Option.{some};
ghost use Rattle.std.specs.Int.{w32};
ghost use Rattle.std.proofs.Common.{SFits};
ghost use Rattle.rules.specs.Words.{first, keep, same_list, is_in, ascending};
ghost use Rattle.rules.specs.Capacities.{spec_room};
ghost use Rattle.rules.specs.Partitions.{same_partition, spec_ids, holds_spec};
ghost use Rattle.rules.specs.WellFormed.{has_spec, spec_below};
ghost use Rattle.rules.specs.SpecUpdates.{held_specs};
ghost use Rattle.rules.specs.Layout.{pad, read_partition_spec, read_partition_specs, laid_partition_specs, read_spec_ids, laid_spec_ids};
ghost use Rattle.search.specs.Places.{index_of};
ghost use Rattle.tables.specs.Laid.{LaidSpec, LaidSpecs, LaidSpecIds};

use crate::ids::{has_spec, push_spec};
use crate::keys::spec_key;
use crate::runs::{holds_key, keep_into, keys_of, position_of};
use equality::read::same_partition_fields;
use records::capacities::PARTITION_SPECS;
use records::counters::SpecId;
use records::partition::{PartitionSpec, PartitionSpecs, SpecIds};

// The ids, in table order, and zeros after them.
pub fn ids_of(t: PartitionSpecs) -> [i64; PARTITION_SPECS]
    requires { LaidSpecs t }
    ensures value { result ≡ pad spec_room (pos 0) (spec_ids (read_partition_specs t)) }
    ensures by_index { (k : ℕ) → SFits w32 (get_or result k (pos 0)) }
{
    keys_of(&t.items[..t.count])
}

pub fn holds(t: PartitionSpecs, id: SpecId) -> bool
    requires { LaidSpecs t }
    ensures { result ≡ holds_spec (read_partition_specs t) id.0 }
{
    holds_key(&t.items[..t.count], spec_key(id))
}

// The spec of an id that is held.
pub fn get(t: PartitionSpecs, id: SpecId) -> PartitionSpec
    requires laid_specs { LaidSpecs t }
    requires id_value { holds_spec (read_partition_specs t) id.0 ≡ true }
    ensures t_value { first (has_spec id.0) (read_partition_specs t) ≡ some (read_partition_spec result) }
    ensures laid_spec { LaidSpec result }
{
    t.items[position_of(&t.items[..t.count], spec_key(id))]
}

// Where the first with equal fields stands, their ids apart; the count where there is none.
pub fn find_equal(t: PartitionSpecs, s: PartitionSpec) -> usize
    requires laid_specs { LaidSpecs t }
    requires laid_spec { LaidSpec s }
    ensures { result ≡ index_of (λ x. same_list same_partition x.fields (read_partition_spec s).fields) (read_partition_specs t) }
{
    for (i, held) in t.items[..t.count].iter().enumerate() {
        if same_partition_fields(*held, s) {
            return i;
        }
    }
    t.count
}

pub fn without(t: PartitionSpecs, ids: SpecIds) -> PartitionSpecs
    requires laid_specs { LaidSpecs t }
    requires laid_spec_ids { LaidSpecIds ids }
    ensures { result ≡ laid_partition_specs (keep (λ s. not (is_in (read_spec_ids ids) s.id)) (read_partition_specs t)) }
{
    let mut rest = PartitionSpecs::blank();
    rest.count = keep_into(&t.items[..t.count], &mut rest.items, |s| {
        !has_spec(ids, s.spec_id)
    });
    rest
}

pub fn held(t: PartitionSpecs, ids: SpecIds) -> SpecIds
    requires laid_specs { LaidSpecs t }
    requires laid_spec_ids { LaidSpecIds ids }
    requires t_value { ascending spec_below (read_partition_specs t) ≡ true }
    ensures { result ≡ laid_spec_ids (held_specs (read_spec_ids ids) (read_partition_specs t)) }
{
    let mut held = SpecIds::blank();
    for s in &t.items[..t.count] {
        if has_spec(ids, s.spec_id) {
            held = push_spec(held, s.spec_id);
        }
    }
    held
}
