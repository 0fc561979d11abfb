// The open lists and objects that are judged: where they begin, and how many elements the lists have.
ghost use Rattle.std.specs.Prelude.{◌≡◌, ◌<◌};
ghost use Rattle.json_members.specs.Opening.{slot_of, first_in, refused_in, count_slot, entering, entering_list, counting_in, counting};

use crate::refusal::{OVER_CAPACITY, refuse};
use crate::spot::room_of;
use crate::state::{FIELD, FIELDS, ITEMS, Judge, LIST, PASSED, RECORD, WANTED, WITHIN};
use crate::{spot, state};

// In which slot stands where a list or an object begins.
#[tactic(auto, unfolding(crate::specs::Opening::slot_of))]
fn slot_of(spot: usize) -> usize
    ensures { (result ≡ slot_of spot) × (result < 104) }
{
    match spot {
        spot::UPDATES => LIST,
        spot::UPDATE => state::UPDATE,
        spot::SCHEMA_FIELDS | spot::ORDER_FIELDS | spot::SPEC_FIELDS => FIELDS,
        spot::FIELD | spot::SORT_FIELD | spot::PARTITION_FIELD => FIELD,
        _ => RECORD,
    }
}

// Where an open list or object begins.
pub fn first_of(judge: &Judge, spot: usize) -> usize
    ensures { result ≡ first_in judge.now spot }
{
    let slot = slot_of(spot);
    judge[slot]
}

// The place at which a value is refused: its own, but that of the schema for the type of a field and for whether it is required.
#[tactic(auto, unfolding(crate::specs::Opening::refused_in))]
pub fn refused_at(judge: &Judge, spot: usize, first: usize) -> usize
    ensures { result ≡ refused_in judge.now spot first }
{
    match spot {
        spot::FIELD_TYPE | spot::FIELD_REQUIRED => judge[RECORD],
        _ => first,
    }
}

// In which slot stands how many elements a list has.
#[tactic(auto, unfolding(crate::specs::Opening::count_slot))]
fn count_slot(list: usize) -> usize
    ensures { (result ≡ count_slot list) × (result < 104) }
{
    if list == spot::UPDATES {
        return state::UPDATES;
    }
    ITEMS
}

// Into the list or object that was wanted, which begins at a place.
#[tactic(auto, unfolding(crate::specs::Opening::entering))]
pub fn enter(judge: &mut Judge, first: usize)
    ensures { judge.new ≡ entering first judge.old }
{
    let spot = judge[WANTED];
    let slot = slot_of(spot);
    judge[slot] = first;
    judge[WITHIN] = spot;
}

pub fn enter_list(judge: &mut Judge, first: usize)
    ensures { judge.new ≡ entering_list first judge.old }
{
    enter(judge, first);
    let slot = count_slot(judge[WITHIN]);
    judge[slot] = 0;
}

// One more element of a list: over its capacity the list is refused at its bracket.
fn count_in(judge: &mut Judge, list: usize)
    ensures { judge.new ≡ counting_in list judge.old }
{
    let slot = count_slot(list);
    let count = judge[slot];
    if count < room_of(list) {
        judge[slot] = count + 1;
    } else {
        let first = first_of(judge, list);
        refuse(judge, OVER_CAPACITY, first);
    }
}

// A value begins: one more element, if a list that is judged is the innermost.
#[tactic(auto, unfolding(crate::specs::Opening::counting))]
pub fn count(judge: &mut Judge)
    ensures { judge.new ≡ counting judge.old }
{
    let within = judge[WITHIN];
    if judge[PASSED] == 0 {
        if spot::is_list(within) {
            count_in(judge, within);
        }
    }
}
