// The least refusal so far: the earliest place, and of two at one place the lower number.
ghost use Rattle.std.specs.Prelude.{◌≡◌};
ghost use Rattle.json_members.specs.Refusing.{sooner_in, refusing, stopping};

use crate::nest::STOPPED;
use crate::state::{EXPECT, Judge, NUMBER, PLACE};

// Kept: refusals are numbers, 0 where there is none, as Refusing, Faults and Model of specs/ say them; they are what is answered.
// Not JSON.
pub const NOT_JSON: usize = 27;

// Not what is published: an action, a member, a value.
pub const NOT_PUBLISHED: usize = 28;

// Over a capacity, or nested too deep.
pub const OVER_CAPACITY: usize = 29;

// Whether a refusal comes before the least so far.
#[tactic(auto, unfolding(crate::specs::Refusing::sooner_in))]
fn is_sooner(judge: &Judge, number: usize, place: usize) -> bool
    ensures { result ≡ sooner_in judge.now number place }
{
    if judge[NUMBER] == 0 {
        return true;
    }
    if judge[PLACE] == place {
        return number < judge[NUMBER];
    }
    place < judge[PLACE]
}

// One more refusal.
#[tactic(auto, unfolding(crate::specs::Refusing::refusing))]
pub fn refuse(judge: &mut Judge, number: usize, place: usize)
    ensures { judge.new ≡ refusing number place judge.old }
{
    if is_sooner(judge, number, place) {
        judge[NUMBER] = number;
        judge[PLACE] = place;
    }
}

// Reading ends at a refusal: what encloses this place lacks nothing.
#[tactic(auto, unfolding(crate::specs::Refusing::stopping))]
pub fn stop(judge: &mut Judge, number: usize, place: usize)
    ensures { judge.new ≡ stopping number place judge.old }
{
    refuse(judge, number, place);
    judge[EXPECT] = STOPPED;
}
