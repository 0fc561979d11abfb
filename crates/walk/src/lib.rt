// Ancestor walks: the ids from a snapshot to its oldest held ancestor, or to an excluded one, written to a lent buffer.
// Refuses bad lists with 1, a snapshot met twice with 24 and a short buffer with 25; nothing is written then.
// Document 01 decides, as the crate `rules` writes it in Walk.
#![tactic(auto)]

ghost use Rattle.std.specs.Prelude.{◌≡◌, length};
ghost use Rattle.rules.specs.Layout.{given};
ghost use Rattle.rules.specs.Words.{is_in};
ghost use Rattle.rules.specs.Walk.{Listed, ancestors, walk_buffer};
ghost use Rattle.walk.specs.Answers.{refusal, walked};
ghost use Rattle.walk.specs.Lists.{NoneBelow};

use lists::{ascend, is_in, lists_formed};
use records::capacities::SNAPSHOTS;
use records::replies::{ACCEPTED, BUFFER_TOO_SHORT, LISTS_NOT_FORMED, MET_TWICE};
use step::{given, step};

mod lists;
mod step;

// The number is 0, 1, 24 or 25; the count is that of the ids written.
#[derive(Clone, Copy)]
pub struct Walked {
    pub number: u8,
    pub count: usize,
}

fn refused(number: u8) -> Walked
    ensures { result ≡ refusal number }
{
    Walked { number, count: 0 }
}

// The answer of a walk that listed these ids: they go to the front of the buffer, if it has room for all.
#[tactic(auto, unfolding(crate::specs::Answers::walked))]
fn listed(path: &[i64], out: &mut [i64]) -> Walked
    ensures answer { result ≡ walked (length out.old) (Listed path.now) }
    ensures buffer { out.new ≡ walk_buffer out.old (Listed path.now) }
{
    if path.len() > out.len() {
        return refused(BUFFER_TOO_SHORT);
    }
    out[..path.len()].copy_from_slice(path);
    Walked {
        number: ACCEPTED,
        count: path.len(),
    }
}

// Whether the id is listed. No listed id is below `least`, so one that is below it is not listed, and there is no scan: in most tables
// parents have lower ids.
#[tactic(auto, using(crate::proofs::Least::below_all))]
fn is_listed(path: &[i64], least: i64, id: i64) -> bool
    requires { NoneBelow least path.now }
    ensures { result ≡ is_in path.now id }
{
    if id < least {
        return false;
    }
    is_in(path, id)
}

// From `start`, itself first, parent by parent, to the excluded id if one is given. Serves `ancestors_of` and `ancestors_between`.
pub fn ancestors(
    ids: &[i64],
    parents: &[i64],
    start: i64,
    has_excluded: bool,
    excluded: i64,
    out: &mut [i64],
) -> Walked
    ensures answer { result ≡ walked (length out.old) (ancestors ids.now parents.now start (given has_excluded excluded)) }
    ensures buffer { out.new ≡ walk_buffer out.old (ancestors ids.now parents.now start (given has_excluded excluded)) }
{
    let ascends = ascend(ids);
    if !lists_formed(ids, parents, ascends) {
        return refused(LISTS_NOT_FORMED);
    }
    let end = given(has_excluded, excluded);
    let mut path = [0i64; SNAPSHOTS];
    let mut n: usize = 0;
    let mut id = start;
    let mut place: usize = 0;
    let mut least = start;
    'walk: loop {
        place = step(ids, ascends, place, id, end);
        if place == ids.len() {
            return listed(&path[..n], out);
        }
        if is_listed(&path[..n], least, id) {
            return refused(MET_TWICE);
        }
        path[n] = id;
        n += 1;
        least = least.min(id);
        id = parents[place];
    }
}
