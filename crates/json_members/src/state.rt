// The state of a judge, in numbers: what may come next, which lists and objects are open, which names were seen, and the least refusal so far.
ghost use Rattle.std.specs.Prelude.{◌≡◌};
ghost use Rattle.json_members.specs.Slots.{start_slots, kind_in, seen_in, named_in, seeing, forgetting};

use crate::spot::{SPEC_IDS, SPOTS};

// Kept: a slot is a number of the one array, as Slots of specs/ and the functions and theorems over it say.
pub const SLOTS: usize = 104;

pub type Judge = [usize; SLOTS];

// What may come next (`nest`), and a bit for each open bracket.
pub const EXPECT: usize = 0;

pub const KINDS: usize = 1;

// The spot of the innermost open list or object that is judged, and of the value that comes next; how many brackets are open in what is passed over.
pub const WITHIN: usize = 2;

pub const WANTED: usize = 3;

pub const PASSED: usize = 4;

// The kind of the open update; 0 as long as no action names one.
pub const KIND: usize = 5;

// The least refusal: its number, 0 where there is none, and its place.
pub const NUMBER: usize = 6;

pub const PLACE: usize = 7;

// Where the open ones begin: the list, the update, its record (a snapshot, a schema, a sort order, a partition spec or a list of ids), the fields of that, and one field.
pub const LIST: usize = 8;

pub const UPDATE: usize = 9;

pub const RECORD: usize = 10;

pub const FIELDS: usize = 11;

pub const FIELD: usize = 12;

// How many elements the list has, and the innermost list below it: of ids, or of fields.
pub const UPDATES: usize = 13;

pub const ITEMS: usize = 14;

// For each spot 1 if its name was seen since its object was opened, and 0 if not.
const SEEN: usize = 16;

// For each member of an update the place of its name, if it was seen.
const NAMED: usize = 80;

// Before the first lexeme: a list of updates is wanted.
pub fn start() -> Judge
    ensures { result ≡ start_slots }
{
    let mut judge = [0; SLOTS];
    judge[KINDS] = 1;
    judge[WANTED] = crate::spot::UPDATES;
    judge
}

// The kind of the open update.
pub fn kind_of(judge: &Judge) -> u8
    ensures { result ≡ kind_in judge.now }
{
    (judge[KIND] % 256) as u8
}

#[tactic(auto, unfolding(crate::specs::Slots::seen_in))]
pub fn is_seen(judge: &Judge, spot: usize) -> bool
    ensures { result ≡ seen_in judge.now spot }
{
    if spot < SPOTS {
        return judge[SEEN + spot] == 1;
    }
    false
}

// The place of the name of an update's member.
#[tactic(auto, unfolding(crate::specs::Slots::named_in))]
pub fn named_at(judge: &Judge, spot: usize) -> usize
    ensures { result ≡ named_in judge.now spot }
{
    if spot <= SPEC_IDS {
        return judge[NAMED + spot];
    }
    0
}

// A member's name was seen at a place.
#[tactic(auto, unfolding(crate::specs::Slots::marking, crate::specs::Slots::placing))]
pub fn see(judge: &mut Judge, spot: usize, place: usize)
    ensures { judge.new ≡ seeing spot place judge.old }
{
    if spot < SPOTS {
        judge[SEEN + spot] = 1;
    }
    if spot <= SPEC_IDS {
        judge[NAMED + spot] = place;
    }
}

// None of these was seen.
pub fn forget(judge: &mut Judge, from: usize, to: usize)
    ensures { judge.new ≡ forgetting from to judge.old }
{
    for spot in from..=to.min(SPOTS - 1) {
        judge[SEEN + spot] = 0;
    }
}
