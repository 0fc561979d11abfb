// The defects of a metadata file in words, a line for each.
use crate::gone::find;
use crate::reason::Reason;
use crate::words::{name_of, wanted, words_of};
use cards::card::Card;
use json_told::field::say_field;
use json_told::found::{Defect, Found};
use json_told::path::{Path, Step};
use json_told::told::{say_number, say_quoted, say_spot, say_step};
use plaintext::name::say_escaped;
use plaintext::number::say_count;
use plaintext::template::say_part;
use plaintext::text::say;
use tokens::output::Output;

// The first name has no point before it.
fn say_first_step(output: &mut Output, text: &[u8], step: Step) {
    match step {
        Step::Member(Some(name)) => say_quoted(output, text, name),
        _ => say_step(output, text, step),
    }
}

// As `, schemas[0].identifier-field-ids`; of the file itself nothing.
fn say_path(output: &mut Output, text: &[u8], path: &Path) {
    let Some((first, others)) = path.steps().split_first() else {
        say(output, b", the file itself");
        return;
    };
    say(output, b", ");
    say_first_step(output, text, *first);
    for step in others {
        say_step(output, text, *step);
    }
}

fn say_detail(output: &mut Output, reason: Reason) {
    match reason {
        Reason::Missing(spot) => say(output, name_of(spot)),
        Reason::Otherwise(want) => say(output, wanted(want)),
        Reason::OverText(bytes) => {
            say_count(output, bytes);
            say(output, b" bytes");
        }
        Reason::OverList(room) => say_count(output, room),
        _ => {}
    }
}

// The list of the fields of a schema is the last bracket but one.
fn say_reason(output: &mut Output, text: &[u8], defect: Defect<Reason>) {
    say(output, words_of(defect.reason));
    if let Reason::OfField(member, named) = defect.reason {
        let path = Path::to(text, defect.at);
        let step = path.step_around();
        say_field(output, text, &path, step, defect.at, member, named);
    } else {
        say_detail(output, defect.reason);
    }
}

// Where a defect is, the number, and why.
fn say_defect(output: &mut Output, text: &[u8], defect: Defect<Reason>, is_first: bool) {
    let place = defect.place;
    let path = Path::to(text, place);
    say_spot(output, text, &path, place);
    say_path(output, text, &path);
    say_number(output, defect.number, is_first);
    say_reason(output, text, defect);
    say(output, b"\n");
}

// The answer, where going through the text did not show it.
fn note_answer(found: &mut Found<Reason>, number: usize, place: usize) {
    let is_found = found
        .first()
        .is_some_and(|first| first.number == number && first.place == place);
    if !is_found {
        found.note(Defect {
            number,
            place,
            at: place,
            reason: Reason::Unseen(number),
        });
    }
}

fn say_found(output: &mut Output, text: &[u8], found: &Found<Reason>) {
    for (i, kept) in found.kept.iter().enumerate() {
        if let Some(defect) = kept {
            if i > 0 {
                say(output, b"  also ");
            }
            say_defect(output, text, *defect, i == 0);
        }
    }
}

// Why a file is refused with this number at this place.
pub fn say_bad_file(output: &mut Output, name: &[u8], text: &[u8], number: usize, place: usize) {
    let mut found = find(text);
    note_answer(&mut found, number, place);
    say(output, b"bad file: ");
    say_escaped(output, name, name.len());
    say(output, b", ");
    say_found(output, text, &found);
    let template = b"!0{|  and %0 more\n}the file is refused\n";
    let card = Card::of_numbers([0; 8], [found.left_out as u64, 0]);
    say_part(output, template, 0, 0, card);
}
