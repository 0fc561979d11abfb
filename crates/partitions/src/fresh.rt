// Fresh ids: a field that neither gives nor reuses an id takes the next number that no field of its spec has, from the last partition id on.
ghost use Rattle.std.specs.Prelude.{◌≡◌, ℕ, suc, ◌+◌, ◌<◌, ◌≤◌, true, false, [], ◌∷◌, pos, ◌+ℤ◌, length, get_or, take, slice_set, MatchOption};
ghost use Rattle.std.specs.Int.Signed.{lt_z};
ghost use Rattle.std.specs.Int.{w32, w64};
ghost use Rattle.std.proofs.Common.{SFits};
ghost use Rattle.rules.specs.Words.{any, larger as largerOf};
ghost use Rattle.rules.specs.Capacities.{partition_field_room, largest_field_id};
ghost use Rattle.rules.specs.Partitions.{partition_ids};
ghost use Rattle.rules.specs.SpecUpdates.{next_free, fresh_ids, fresh_of, completed, is_sequential, first_partition_id, reaches};
ghost use Rattle.rules.specs.Layout.{pad, read_partition_field, read_partition_spec, laid_partition_spec};
ghost use Rattle.tables.specs.Laid.{LaidSpec};
ghost use Rattle.partitions.specs.Gathered.{laid_ids};
ghost use Rattle.partitions.specs.Numbering.{IsNumbered};
ghost use Rattle.partitions.specs.Slots.{LaidField};

use crate::slots::fields_of;
use records::capacities::PARTITION_FIELDS;
use records::counters::FieldId;
use records::partition::{PartitionField, PartitionSpec};
use search::{Key, highest, is_below, is_in, larger, next};
use tables::keys::{field_id, field_key};

const LARGEST_FIELD_ID: i64 = i32::MAX as i64;

// The first id of a partition field.
const FIRST_PARTITION_ID: i64 = 1000;

// The last partition id of a table that has none yet.
const NO_PARTITION_ID: i64 = 999;

// The ids of the fields that have one, in their order, and zeros after them.
#[derive(Clone, Copy)]
pub struct GivenIds {
    pub ids: [i64; PARTITION_FIELDS],
    pub count: usize,
}

impl GivenIds {
    fn new() -> Self
        ensures { result ≡ laid_ids [] }
    {
        GivenIds {
            ids: [0; PARTITION_FIELDS],
            count: 0,
        }
    }

    fn push(&mut self, id: i64)
        requires { self.old.count < partition_field_room }
        ensures ids { self.new.ids ≡ slice_set self.old.ids self.old.count id }
        ensures count { self.new.count ≡ self.old.count + 1 }
    {
        self.ids[self.count] = id;
        self.count += 1;
    }

    pub fn as_slice(&self) -> &[i64]
        ensures { result.now ≡ take self.now.count self.now.ids }
    {
        &self.ids[..self.count.min(PARTITION_FIELDS)]
    }
}

pub fn given_ids(p: PartitionSpec) -> GivenIds
    requires { LaidSpec p }
    ensures ids_value { result.ids ≡ pad partition_field_room (pos 0) (partition_ids (read_partition_spec p)) }
    ensures count_value { result.count ≡ length (partition_ids (read_partition_spec p)) }
    ensures by_index { (k : ℕ) → SFits w32 (get_or result.ids k (pos 0)) }
    ensures value { take result.count result.ids ≡ partition_ids (read_partition_spec p) }
    ensures short { result.count ≤ partition_field_room }
    ensures fits { (k : ℕ) → SFits w32 (get_or (take result.count result.ids) k (pos 0)) }
{
    let mut given = GivenIds::new();
    for field in fields_of(&p) {
        if field.has_id {
            given.push(field_key(field.field_id).0);
        }
    }
    given
}

// The next number that is not taken, in as many steps as there are taken ones at most.
pub fn next_free(taken: &[i64], after: Key) -> Key
    requires { SFits w64 (after.0 +ℤ pos (suc (length taken.now))) }
    ensures { result.0 ≡ next_free taken.now after.0 }
{
    let mut key = next(after, Key(i64::MAX));
    for _ in taken {
        if !is_in(taken, key) {
            return key;
        }
        key = next(key, Key(i64::MAX));
    }
    key
}

// The number from which the next field goes on, and the field with an id; none where a fresh id would pass the largest.
fn number_field(f: PartitionField, taken: &[i64], number: Key) -> Option<(Key, PartitionField)>
    requires laid_field { LaidField f }
    requires sfits { SFits w32 number.0 }
    requires taken_len_bound { length taken.now ≤ partition_field_room }
    ensures { MatchOption result (any (lt_z (pos largest_field_id)) (fresh_ids taken.now number.0 (read_partition_field f ∷ [])) ≡ true) (λ r. IsNumbered taken.now number.0 (read_partition_field f) r.0.0 r.1) }
{
    if f.has_id {
        return Some((larger(number, field_key(f.field_id)), f));
    }
    let key = next_free(taken, number);
    if is_below(Key(LARGEST_FIELD_ID), key) {
        return None;
    }
    let numbered = PartitionField {
        field_id: field_id(key),
        has_id: true,
        ..f
    };
    Some((key, numbered))
}

// The spec with an id for each field; or a fresh id would pass the largest.
// Kept: the contract of `number_fields` names both, and says of the spec that it is laid out also where `exhausted` is set.
#[derive(Clone, Copy)]
pub struct NumberedSpec {
    pub exhausted: bool,
    pub spec: PartitionSpec,
}

pub fn number_fields(p: PartitionSpec, last: FieldId) -> NumberedSpec
    requires { LaidSpec p }
    ensures exhausted_value { result.exhausted ≡ any (lt_z (pos largest_field_id)) (fresh_of last.0 (read_partition_spec p)) }
    ensures spec_value { result.exhausted ≡ false → result.spec ≡ laid_partition_spec (completed last.0 (read_partition_spec p)) }
    ensures laid_spec { LaidSpec result.spec }
{
    let given = given_ids(p);
    let taken = given.as_slice();
    let fields = fields_of(&p);
    let mut number = field_key(last);
    let mut items = p.items;
    for (i, field) in fields.iter().enumerate() {
        let Some((reached, numbered)) = number_field(*field, taken, number) else {
            return NumberedSpec {
                exhausted: true,
                spec: p,
            };
        };
        number = reached;
        items[i] = numbered;
    }
    NumberedSpec {
        exhausted: false,
        spec: PartitionSpec { items, ..p },
    }
}

// The numbers go up by one, from the first id of a partition field on.
fn counts_up(ids: &[i64]) -> bool
    requires { length ids.now ≤ partition_field_room }
    ensures { result ≡ is_sequential first_partition_id ids.now }
{
    let mut wanted = Key(FIRST_PARTITION_ID);
    for id in ids {
        if *id != wanted.0 {
            return false;
        }
        wanted = next(wanted, Key(LARGEST_FIELD_ID));
    }
    true
}

pub fn is_sequential(p: PartitionSpec) -> bool
    requires { LaidSpec p }
    ensures { result ≡ is_sequential first_partition_id (partition_ids (read_partition_spec p)) }
{
    counts_up(given_ids(p).as_slice())
}

// The last partition id once the spec is added.
pub fn last_partition(old: FieldId, p: PartitionSpec) -> FieldId
    requires { LaidSpec p }
    ensures { result.0 ≡ largerOf old.0 (reaches (read_partition_spec p)) }
{
    if p.count == 0 {
        return field_id(larger(field_key(old), Key(NO_PARTITION_ID)));
    }
    let given = given_ids(p);
    field_id(larger(field_key(old), highest(given.as_slice())))
}
