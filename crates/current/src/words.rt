// A line for each moment, and for each snapshot of a day.
use crate::answer::{Answer, Current, Held};
use calendar::text::{NO_DATE, NO_OFFSET};
use cards::card::Card;
use plaintext::name::say_name;
use plaintext::template::say_part;
use plaintext::text::say;
use records::counters::Time;
use tokens::output::Output;

// As `2025-03-12 10:00:00 UTC (1741773600000)`.
pub fn say_moment(output: &mut Output, time: Time) {
    say_part(output, b"@0 (#0)", 0, 0, Card::of_number(time.0));
}

// snapshot id, since, made
fn card_of(current: Current) -> Card {
    let made = match current.held {
        Held::MadeLater(made) => made,
        Held::No | Held::Yes => Time(0),
    };
    Card::of_numbers(
        [current.id.0, current.since.0, made.0, 0, 0, 0, 0, 0],
        [0, 0],
    )
}

fn words_of(held: Held) -> &'static [u8] {
    match held {
        Held::No => b"no longer held\n",
        Held::Yes => b"still held\n",
        Held::MadeLater(_) => b"a snapshot #0 made at @2 (#2) is held\n",
    }
}

fn say_current(output: &mut Output, template: &[u8], current: Current) {
    let card = card_of(current);
    say_part(output, template, 0, 0, card);
    say_part(output, words_of(current.held), 0, 0, card);
}

fn say_earliest(output: &mut Output, earliest: Time) {
    let template = b": no snapshot is known, since the earliest entry that is kept is of @0 (#0)\n";
    say_part(output, template, 0, 0, Card::of_number(earliest.0));
}

pub fn say_answer(output: &mut Output, answer: Answer) {
    match answer {
        Answer::Known(current) => {
            say_current(output, b": snapshot #0, current since @1 (#1), ", current)
        }
        Answer::BeforeAll(earliest) => say_earliest(output, earliest),
        Answer::NoEntries => say(
            output,
            b": no snapshot is known, since no entries are kept\n",
        ),
        Answer::TooMany => say(
            output,
            b": no answer, since the snapshot log counts more than 128 entries\n",
        ),
    }
}

// A later snapshot of a day.
pub fn say_then(output: &mut Output, current: Current) {
    say_current(output, b"  then snapshot #0 from @1 (#1), ", current);
}

// By the fault that `calendar` finds in it.
fn words_of_fault(fault: usize) -> &'static [u8] {
    match fault {
        NO_OFFSET => b" is no moment, since its offset from UTC is above 23:59: ",
        NO_DATE => { b" is no moment, since the years 1 to 9999 have no such day or time of day: " }
        _ => b" is no moment: ",
    }
}

pub fn say_unread(output: &mut Output, text: &[u8], fault: usize) {
    say_name(output, text, text.len());
    say(output, words_of_fault(fault));
    say(
        output,
        b"give a UTC day, as 2025-03-12, a moment, as 2025-03-12T10:00:00Z or 2025-03-12T12:00+02:00, or milliseconds since 1970\n",
    );
}
