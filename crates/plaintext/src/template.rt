// A template is a sentence with marks for what a card holds. `#3` is its signed number 3, counted from 0, `%0` its unsigned number 0, and
// `@4` the date of its signed number 4, a moment; `$` is its text as a name and `^` its text as a uuid.
// `?1{no parent|parent #2}` says the alternative that its signed number 1 chooses, counted from 0; what stands after a `~` is said for every
// number that chooses none of those before it. `!1{|, of office %0}` says the second alternative where its unsigned number 1 is above 0.
// Many templates in one literal are parted by `;`, and one is chosen by its number. A `*` stands for the card's list, and parts a template in two.
// So a record is said by one call: words that depend on its numbers ask for no branch that prints.
use crate::name::{say_text, say_uuid};
use crate::number::{say_i64, say_u64};
use crate::text::say_byte;
use crate::time::say_date;
use cards::card::{Card, signed_at, unsigned_at};
use records::counters::Time;
use tokens::output::Output;

// Where the reader of templates is: in which template, in which part of it, behind which mark; which alternative is wanted and which is
// read, and whether that is said. Outside of alternatives everything is.
#[derive(Clone, Copy)]
struct Reading {
    template: usize,
    part: usize,
    mark: u8,
    wanted: i64,
    option: u8,
    is_said: bool,
}

const NO_MARK: u8 = 0;

// What is said of a byte that is no mark, and of one that is not said.
const ITSELF: u8 = 1;

const NOTHING: u8 = 2;

fn digit(byte: u8) -> usize {
    if byte < b'0' {
        return 0;
    }
    (byte - b'0') as usize
}

fn one_more(n: usize) -> usize {
    if n < usize::MAX { n + 1 } else { n }
}

fn next_option(option: u8) -> u8 {
    if option < 255 { option + 1 } else { option }
}

// A mark that a digit follows.
fn mark_of(byte: u8) -> u8 {
    match byte {
        b'#' | b'%' | b'@' | b'?' | b'!' => byte,
        _ => NO_MARK,
    }
}

// The alternatives begin, of which the one of this number is wanted.
fn choosing(r: Reading, wanted: i64) -> Reading {
    let mut t = r;
    t.wanted = wanted;
    t.option = 0;
    t.is_said = wanted == 0;
    t
}

// Behind a byte of the templates that no digit belongs to.
fn behind(r: Reading, byte: u8) -> Reading {
    let mut t = r;
    t.mark = mark_of(byte);
    match byte {
        b';' => {
            t.template = one_more(r.template);
            t.part = 0;
        }
        b'*' => t.part = one_more(r.part),
        b'|' => {
            let option = next_option(r.option);
            t.option = option;
            t.is_said = r.wanted == option as i64;
        }
        b'~' => t.is_said = r.wanted > r.option as i64,
        b'}' => t.is_said = true,
        _ => {}
    }
    t
}

fn after(r: Reading, byte: u8, card: Card) -> Reading {
    let mark = r.mark;
    if mark == NO_MARK {
        return behind(r, byte);
    }
    let mut t = r;
    t.mark = NO_MARK;
    if mark == b'?' {
        return choosing(t, signed_at(card, digit(byte)));
    }
    if mark == b'!' {
        return choosing(t, (unsigned_at(card, digit(byte)) > 0) as i64);
    }
    t
}

fn kind_of(byte: u8) -> u8 {
    match byte {
        b'$' | b'^' => byte,
        b'#' | b'%' | b'@' | b'?' | b'!' | b'{' | b'|' | b'~' | b'}' | b';' | b'*' => NOTHING,
        _ => ITSELF,
    }
}

fn said(r: Reading, byte: u8, template: usize, part: usize) -> u8 {
    if r.template != template {
        return NOTHING;
    }
    if r.part != part {
        return NOTHING;
    }
    if !r.is_said {
        return NOTHING;
    }
    let mark = r.mark;
    if mark == NO_MARK { kind_of(byte) } else { mark }
}

fn say_mark(output: &mut Output, mark: u8, byte: u8, card: Card) {
    match mark {
        ITSELF => say_byte(output, byte),
        b'#' => say_i64(output, signed_at(card, digit(byte))),
        b'%' => say_u64(output, unsigned_at(card, digit(byte))),
        b'@' => say_date(output, Time(signed_at(card, digit(byte)))),
        b'$' => say_text(output, card.text),
        b'^' => say_uuid(output, card.text),
        _ => {}
    }
}

// One part of one template.
pub fn say_part(output: &mut Output, templates: &[u8], template: usize, part: usize, card: Card) {
    let mut reading = Reading {
        template: 0,
        part: 0,
        mark: NO_MARK,
        wanted: 0,
        option: 0,
        is_said: true,
    };
    for &byte in templates {
        let mark = said(reading, byte, template, part);
        say_mark(output, mark, byte, card);
        reading = after(reading, byte, card);
    }
}
