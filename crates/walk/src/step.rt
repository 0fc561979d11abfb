// One step of a walk.
ghost use Rattle.std.specs.Prelude.{◌≡◌, true, ◌≤◌, length};
ghost use Rattle.rules.specs.Layout.{given};
ghost use Rattle.rules.specs.Words.{eq_z, some_with, unequal};
ghost use Rattle.search.specs.Places.{index_of};
ghost use Rattle.walk.specs.Answers.{as_given, step_from};
ghost use Rattle.walk.specs.Lists.{rising};

use search::{position, position_ascending};

// The id that is excluded, if one is given.
pub fn given(has_excluded: bool, excluded: i64) -> Option<i64>
    ensures { as_given result ≡ given has_excluded excluded }
{
    if has_excluded { Some(excluded) } else { None }
}

fn is_excluded(id: i64, excluded: Option<i64>) -> bool
    ensures { result ≡ some_with (eq_z id) (as_given excluded) }
{
    match excluded {
        Some(end) => id == end,
        None => false,
    }
}

// Where the id stands; the length where it does not. In most tables a parent stands right before its child, so the place before the last one is tried first.
#[tactic(auto, using(crate::proofs::Places::place_at, crate::proofs::Rising::rising_ascends))]
fn place_of(ids: &[i64], ascends: bool, last: usize, id: i64) -> usize
    requires unequal { unequal ids.now ≡ true }
    requires order { ascends ≡ rising ids.now }
    requires place { last ≤ length ids.now }
    ensures { result ≡ index_of (λ x. eq_z x id) ids.now }
{
    if last > 0 && ids[last - 1] == id {
        return last - 1;
    }
    if ascends {
        return position_ascending(ids, id);
    }
    position(ids, id)
}

// Where the walk goes on; the length where it ends, in front of an id that is excluded or not held.
pub fn step(ids: &[i64], ascends: bool, last: usize, id: i64, excluded: Option<i64>) -> usize
    requires unequal { unequal ids.now ≡ true }
    requires order { ascends ≡ rising ids.now }
    requires place { last ≤ length ids.now }
    ensures { result ≡ step_from ids.now (as_given excluded) id }
{
    if is_excluded(id, excluded) {
        return ids.len();
    }
    place_of(ids, ascends, last, id)
}
