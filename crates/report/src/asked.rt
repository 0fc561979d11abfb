// What a session starts from and asks: the metadata, the terms of its run, and its updates.
use crate::conditions::say_with_conditions;
use cards::card::{Card, counted, text_of};
use case_reader::limit_text::LimitText;
use case_reader::run::Run;
use plaintext::template::say_part;
use plaintext::update::say_updates;
use primitives::limit::limit;
use records::run::{FIRST_OFFICE, RunTerms};
use slot_bounds::lent;
use tokens::output::Output;

fn limit_of(text: LimitText) -> u64 {
    let len = lent(&text.bytes, text.len);
    limit(&text.bytes[..len])
}

// clock, tolerance, has_file, whether the office is not the first, office; limit; file name
fn terms_card(terms: RunTerms, limit: u64) -> Card {
    let numbers = Card::of_numbers(
        [
            terms.clock_ms.0,
            terms.tolerance_ms.0,
            terms.has_file as i64,
            (terms.office != FIRST_OFFICE) as i64,
            terms.office as i64,
            0,
            0,
            0,
        ],
        [limit, 0],
    );
    numbers.with_text(text_of(&terms.file.bytes, terms.file.len))
}

// The office is said if it is not the first.
fn say_terms(output: &mut Output, terms: Card) {
    let template = b"this session asks\
        ?3{|\n  office: #4}\
        \n  clock: #0 (@0)\
        \n  tolerance: #1 ms\
        \n  current metadata file: ?2{none|$}\
        \n  limit of the metadata log: %0\n";
    say_part(output, template, 0, 0, terms);
}

pub fn say_asked(output: &mut Output, number: usize, run: Run, offers: &[u8]) {
    let heading = b"run %0\nlast session's metadata\n";
    say_part(output, heading, 0, 0, counted(number, 0));
    say_with_conditions(output, run.metadata);
    say_terms(output, terms_card(run.terms, limit_of(run.limit)));
    say_updates(output, b"updates", run.updates, offers);
}
