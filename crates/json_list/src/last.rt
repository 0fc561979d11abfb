// An update that is closed, and a lexeme in which the text ends.
ghost use Rattle.std.specs.Prelude.{◌≡◌, ◌&&◌, eqb, ltb, get_or};
ghost use Rattle.json_machine.specs.Lexing.{reading};
ghost use Rattle.json_store.specs.Puts.{last_of};
ghost use Rattle.json_list.specs.Listing.{work, listing, worked_to, storing};
ghost use Rattle.json_list.specs.States.{last_worked};

use crate::step::whole;
use json_lex::lexer::{Lexer, head_of, is_whole_number};
use json_lex::mode::{BETWEEN, STOPPED, may_end};
use json_lex::text::Kept;
use json_members::judge::take_broken;
use json_members::spot::{ANYTHING, UPDATE};
use json_members::state::{Judge, UPDATES};
use json_store::numbers::Numbers;
use json_store::offer::{Offers, append_offer};
use json_store::texts::Texts;
use json_store::update::update_of;
use records::update::UpdateList;

// The place of the last update of the list.
#[tactic(auto, unfolding(json_store::specs::Puts::last_of))]
pub fn place_of(judge: &Judge) -> usize
    ensures { result ≡ last_of (get_or judge.now 13 0) }
{
    judge[UPDATES].saturating_sub(1)
}

// Whether an update was closed, and there is room for it.
pub fn is_stored(done: usize, place: usize) -> bool
    ensures { result ≡ eqb done 2 && ltb place 64 }
{
    done == UPDATE && place < records::capacities::UPDATES
}

// A lexeme in which the text ends, if there is one: a number that may end there is whole. What it makes whole is told.
pub fn take_last(
    l: Lexer,
    len: usize,
    kept: &Kept,
    judge: &mut Judge,
    numbers: &mut Numbers,
    texts: &mut Texts,
) -> usize
    ensures { worked_to (work judge.new numbers.new texts.new) result ≡ last_worked len (reading l kept.now) (work judge.old numbers.old texts.old) }
{
    let mode = l.mode;
    if may_end(mode) {
        return whole(
            kept,
            head_of(l),
            l.first,
            l.text.len,
            is_whole_number(l),
            l.number.magnitude,
            judge,
            numbers,
            texts,
        );
    }
    if mode == BETWEEN {
        return ANYTHING;
    }
    if mode == STOPPED {
        return ANYTHING;
    }
    take_broken(judge, head_of(l), l.first, len);
    ANYTHING
}

// The updates that were closed, and how many bytes they offer.
#[derive(Clone, Copy)]
pub struct Held {
    pub list: UpdateList,
    pub offered: usize,
}

// With what the end of the text closes.
pub fn store_last(
    done: usize,
    list: UpdateList,
    offered: usize,
    judge: &Judge,
    numbers: &Numbers,
    texts: &Texts,
    offers: &mut Offers,
) -> Held
    ensures { listing (work judge.now numbers.now texts.now) result.list result.offered offers.new ≡ storing done (listing (work judge.now numbers.now texts.now) list offered offers.old) }
{
    let place = place_of(judge);
    if is_stored(done, place) {
        let mut more = list;
        let u = update_of(offered, judge, numbers, texts);
        more.items[place] = u;
        let end = append_offer(offers, offered, judge, numbers, texts);
        return Held {
            list: more,
            offered: end,
        };
    }
    Held { list, offered }
}
