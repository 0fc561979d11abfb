// A reader of parts, and its answer at the end.
ghost use Rattle.std.specs.Prelude.{◌≡◌, ◌+◌, ◌-◌, ◌<◌, min};
ghost use Rattle.json_list.specs.States.{no_offers, state_of, at_start, feeding, ended, answering, ending};

use crate::last::{Held, is_stored, place_of, store_last, take_last};
use crate::part::read_on;
use crate::step::run_of;
use json_lex::lexer::{Lexer, between};
use json_lex::text::{KEPT, Kept};
use json_members::judge::take_end;
use json_members::spot::ANYTHING;
use json_members::state::{Judge, NUMBER, PLACE, UPDATES, start as judging};
use json_store::numbers::{NUMBERS, Numbers};
use json_store::offer::{Offers, append_offer};
use json_store::texts::{TEXTS, Texts};
use json_store::update::update_of;
use records::update::UpdateList;

// A text has at most so many bytes: any behind them would not be read.
const MOST: usize = 18446744073709551615;

// What is kept from part to part: how many bytes came before, the open lexeme, the judge, what is held of an open update, the updates that were closed, and how
// many bytes they offer.
#[derive(Clone, Copy)]
pub struct Reader {
    pub before: usize,
    pub lexer: Lexer,
    pub kept: Kept,
    pub judge: Judge,
    pub numbers: Numbers,
    pub texts: Texts,
    pub list: UpdateList,
    pub offered: usize,
}

// The number is 0 where a list was read.
#[derive(Clone, Copy)]
pub struct Answer {
    pub number: u8,
    pub place: usize,
    pub list: UpdateList,
    pub offered: usize,
}

// No byte is offered.
fn blank_offers(offers: &mut Offers)
    ensures { offers.new ≡ no_offers offers.old }
{
    offers.fill(0);
}

// Before the first part.
pub fn start(offers: &mut Offers) -> Reader
    ensures { state_of result offers.new ≡ at_start offers.old }
{
    blank_offers(offers);
    let lexer = between();
    let judge = judging();
    let list = UpdateList::blank();
    Reader {
        before: 0,
        lexer,
        kept: [0; KEPT],
        judge,
        numbers: [0; NUMBERS],
        texts: [0; TEXTS],
        list,
        offered: 0,
    }
}

// How many bytes of a part are read.
fn reach(before: usize, len: usize) -> usize
    ensures { (result ≡ min (18446744073709551615 - before) len) × (before + result < 18446744073709551616) }
{
    len.min(MOST - before)
}

// One part of the text.
pub fn feed(reader: Reader, part: &[u8], offers: &mut Offers) -> Reader
    ensures { state_of result offers.new ≡ feeding part.now (state_of reader offers.old) }
{
    let before = reader.before;
    let n = reach(before, part.len());
    let mut kept = reader.kept;
    let mut judge = reader.judge;
    let mut numbers = reader.numbers;
    let mut texts = reader.texts;
    let mut list = reader.list;
    let mut offered = reader.offered;
    let lexer = reader.lexer;
    let mut run = run_of(lexer, lexer.mode, 0, ANYTHING);
    // Kept: the place goes from update to update, not from byte to byte.
    while run.at < n {
        run = read_on(
            run,
            &part[..n],
            before,
            &mut kept,
            &mut judge,
            &mut numbers,
            &mut texts,
        );
        let place = place_of(&judge);
        if is_stored(run.done, place) {
            let u = update_of(offered, &judge, &numbers, &texts);
            list.items[place] = u;
            offered = append_offer(offers, offered, &judge, &numbers, &texts);
        }
    }
    let lexer = run.lexer;
    Reader {
        before: before + n,
        lexer,
        kept,
        judge,
        numbers,
        texts,
        list,
        offered,
    }
}

// The list, or the least refusal: then the list is empty, and no byte is offered.
fn answer_of(held: Held, judge: &Judge, offers: &mut Offers) -> Answer
    ensures { ended result offers.new ≡ answering judge.now held.list held.offered offers.old }
{
    if judge[NUMBER] == 0 {
        let mut list = held.list;
        list.count = judge[UPDATES];
        return Answer {
            number: 0,
            place: 0,
            list,
            offered: held.offered,
        };
    }
    blank_offers(offers);
    let list = UpdateList::blank();
    Answer {
        number: (judge[NUMBER] % 256) as u8,
        place: judge[PLACE],
        list,
        offered: 0,
    }
}

// After the last part.
pub fn end(reader: Reader, offers: &mut Offers) -> Answer
    ensures { ended result offers.new ≡ ending (state_of reader offers.old) }
{
    let len = reader.before;
    let kept = reader.kept;
    let mut judge = reader.judge;
    let mut numbers = reader.numbers;
    let mut texts = reader.texts;
    let done = take_last(
        reader.lexer,
        len,
        &kept,
        &mut judge,
        &mut numbers,
        &mut texts,
    );
    let held = store_last(
        done,
        reader.list,
        reader.offered,
        &judge,
        &numbers,
        &texts,
        offers,
    );
    take_end(&mut judge, len);
    answer_of(held, &judge, offers)
}
