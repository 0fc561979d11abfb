// The first question: whether the stored log leads from last session's metadata to this session's.
use cards::card::{Card, text_of};
use plaintext::template::say_part;
use plaintext::text::say;
use records::run::RunTerms;
use report::judged::{Judged, say_judged};
use tokens::output::Output;

// clock, tolerance, office, has_file, whether the clock was given, whether the file was; file name
fn terms_card(terms: RunTerms, is_clock_given: bool, is_file_given: bool) -> Card {
    let numbers = Card::of_numbers(
        [
            terms.clock_ms.0,
            terms.tolerance_ms.0,
            terms.office as i64,
            terms.has_file as i64,
            is_clock_given as i64,
            is_file_given as i64,
            0,
            0,
        ],
        [0, 0],
    );
    numbers.with_text(text_of(&terms.file.bytes, terms.file.len))
}

fn say_terms(output: &mut Output, terms: Card) {
    let template =
        b"   Asked with the clock at @0 (#0)?4{, which is this session's last update, since no --clock was given|},\
        \n   a tolerance of #1 ms, by office #2, with the current metadata file ?3{none|$}\
        ?5{, read off this session's metadata log, since no --file was given|}.\n";
    say_part(output, template, 0, 0, terms);
}

// Whether the log leads there.
fn leads(judged: Judged) -> bool {
    judged.number == 0 && judged.difference.part == 0
}

fn say_yes_or_no(output: &mut Output, is_yes: bool) {
    if is_yes {
        say(output, b"   YES: ");
    } else {
        say(output, b"   NO: ");
    }
}

pub fn say_first(
    output: &mut Output,
    judged: Judged,
    terms: RunTerms,
    is_clock_given: bool,
    is_file_given: bool,
) {
    let card = terms_card(terms, is_clock_given, is_file_given);
    say(
        output,
        b"\n1. Does the stored change log alone lead from last session's metadata to this session's?\n",
    );
    say_yes_or_no(output, leads(judged));
    say_judged(output, judged);
    say_terms(output, card);
    say(
        output,
        b"   Proved: judge-leads-exactly. The answer is yes exactly if the log, run from last session's metadata, is accepted, and what it gives\
        \n   equals this session's metadata in every field and every record. And run-replays: the log of an accepted run leads there, under its terms.\
        \n   It rests on the written rules of a run, on the checker of the proofs, and on the terms above being those of the session.\n",
    );
}
