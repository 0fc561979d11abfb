// The lists that a walk is given.
ghost use Rattle.std.specs.Prelude.{◌≡◌};
ghost use Rattle.rules.specs.Words.{is_in};
ghost use Rattle.rules.specs.Walk.{lists_formed};
ghost use Rattle.walk.specs.Lists.{ids_formed, rising};

use records::capacities::SNAPSHOTS;

// Whether the id is one of them, as `search::is_in`, but not by `contains`. That compares four ids at a time and then the rest: over lists as
// short as these cachegrind counts two thirds more branches that are guessed wrong, and walks over ids in no order took longer.
#[tactic(auto, using(crate::proofs::Scans::in_here, crate::proofs::Scans::in_rest, crate::proofs::Scans::in_none))]
pub fn is_in(ids: &[i64], id: i64) -> bool
    ensures { result ≡ is_in ids.now id }
{
    for held in ids {
        if *held == id {
            return true;
        }
    }
    false
}

// No id below 0, none twice.
#[tactic(auto, using(crate::proofs::Scans::formed_under, crate::proofs::Scans::formed_twice, crate::proofs::Scans::formed_rest, crate::proofs::Scans::formed_end, crate::proofs::Bits::not_negative))]
fn ids_formed(ids: &[i64]) -> bool
    ensures { result ≡ ids_formed ids.now }
{
    for (i, id) in ids.iter().enumerate() {
        if *id < 0 {
            return false;
        }
        if is_in(&ids[i + 1..], *id) {
            return false;
        }
    }
    true
}

// No id below 0, each above the one before it.
#[tactic(auto, using(crate::proofs::Rising::rises_not, crate::proofs::Rising::rises_on, crate::proofs::Rising::rises_end), unfolding(crate::specs::Lists::rising))]
pub fn ascend(ids: &[i64]) -> bool
    ensures { result ≡ rising ids.now }
{
    let mut last: i64 = -1;
    for id in ids {
        if *id <= last {
            return false;
        }
        last = *id;
    }
    true
}

// As many parents as ids, at most 64, no id below 0, none twice. Ids that ascend are not compared pair by pair.
#[tactic(auto, using(crate::proofs::Scans::formed_ids, crate::proofs::Rising::rising_formed))]
pub fn lists_formed(ids: &[i64], parents: &[i64], ascends: bool) -> bool
    requires { ascends ≡ rising ids.now }
    ensures { result ≡ lists_formed ids.now parents.now }
{
    ids.len() == parents.len() && ids.len() <= SNAPSHOTS && (ascends || ids_formed(ids))
}
