// The defects of a list in words, a line for each: `bad list: orders.json, line 7, column 14, updates[2].schema: refused 28: ..`, and those behind it.
ghost use Rattle.slot_bounds.specs.Counted.{Counted};

use crate::field::say_field;
use crate::found::{Defect, Found};
use crate::judged::find;
use crate::path::{Path, Step};
use crate::reason::Reason;
use crate::words::{detail_of, words_of};
use cards::card::Card;
use plaintext::name::say_escaped;
use plaintext::template::say_part;
use plaintext::text::say;
use slot_bounds::lent;
use tokens::output::Output;

// So many bytes of a name are said.
const SAID: usize = 64;

// How many bytes stand before the quote that ends a text, or are said of it.
fn quoted(rest: &[u8]) -> usize
    ensures { Counted result rest.now }
{
    let most = lent(rest, SAID);
    let mut is_escaped = false;
    for (i, &byte) in rest[..most].iter().enumerate() {
        if byte == b'"' && !is_escaped {
            return lent(rest, i);
        }
        is_escaped = byte == b'\\' && !is_escaped;
    }
    most
}

// A text as it stands behind the quote at a place.
pub fn say_quoted(output: &mut Output, text: &[u8], quote: usize) {
    let from = lent(text, quote.wrapping_add(1));
    let rest = &text[from..];
    let len = quoted(rest);
    say_escaped(output, &rest[..len], len);
}

// A position in a list, or a name in an object.
pub fn say_step(output: &mut Output, text: &[u8], step: Step) {
    match step {
        Step::Item(position) => {
            let card = Card::of_numbers([0; 8], [position as u64, 0]);
            say_part(output, b"[%0]", 0, 0, card);
        }
        Step::Member(Some(name)) => {
            say(output, b".");
            say_quoted(output, text, name);
        }
        Step::Member(None) => {}
    }
}

fn say_path(output: &mut Output, text: &[u8], path: &Path) {
    say(output, b", updates");
    for step in path.steps() {
        say_step(output, text, *step);
    }
}

pub fn say_spot(output: &mut Output, text: &[u8], path: &Path, place: usize) {
    let template = b"?0{line %0, column %1|byte %0}";
    let card = path.spot_card(place, place <= text.len());
    say_part(output, template, 0, 0, card);
}

// Where the field of a schema is in its list: the list is the fourth bracket, behind those of the updates, the update and the schema.
const FIELDS_DEPTH: usize = 4;

// The number of a refusal: of the first it is said that it refuses.
pub fn say_number(output: &mut Output, number: usize, is_first: bool) {
    let template = b": ?0{|refused }%0: ";
    let signed = [is_first as i64, 0, 0, 0, 0, 0, 0, 0];
    let card = Card::of_numbers(signed, [number as u64, 0]);
    say_part(output, template, 0, 0, card);
}

fn say_reason(output: &mut Output, text: &[u8], defect: Defect<Reason>) {
    say(output, words_of(defect.reason));
    if let Reason::OfField(member, named) = defect.reason {
        let path = Path::to(text, defect.at);
        let step = path.step_at(FIELDS_DEPTH);
        say_field(output, text, &path, step, defect.at, member, named);
    } else {
        say(output, detail_of(defect.reason));
    }
}

// Where a defect is, the number, and why.
fn say_defect(output: &mut Output, text: &[u8], defect: Defect<Reason>, is_first: bool) {
    let place = defect.place;
    let path = Path::to(text, place);
    say_spot(output, text, &path, place);
    if place <= text.len() {
        say_path(output, text, &path);
    }
    say_number(output, defect.number, is_first);
    say_reason(output, text, defect);
    say(output, b"\n");
}

// The answer, where it was not found in what is held of the text.
fn note_answer(found: &mut Found<Reason>, number: usize, place: usize) {
    let is_found = found
        .first()
        .is_some_and(|first| first.number == number && first.place == place);
    if !is_found {
        found.note(Defect {
            number,
            place,
            at: place,
            reason: Reason::Unseen(number),
        });
    }
}

fn say_found(output: &mut Output, text: &[u8], found: &Found<Reason>) {
    for (i, kept) in found.kept.iter().enumerate() {
        if let Some(defect) = kept {
            if i > 0 {
                say(output, b"  also ");
            }
            say_defect(output, text, *defect, i == 0);
        }
    }
}

// Why a list is refused with this number at this place. The text is as much of it as is held: all, or its beginning.
pub fn say_bad_list(
    output: &mut Output,
    name: &[u8],
    text: &[u8],
    is_whole: bool,
    number: usize,
    place: usize,
) {
    let mut found = find(text, is_whole);
    note_answer(&mut found, number, place);
    say(output, b"bad list: ");
    say_escaped(output, name, name.len());
    say(output, b", ");
    say_found(output, text, &found);
    let template = b"!0{|  and %0 more\n}";
    let card = Card::of_numbers([0; 8], [found.left_out as u64, 0]);
    say_part(output, template, 0, 0, card);
}
