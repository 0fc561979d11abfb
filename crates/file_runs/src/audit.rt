// audit LAST LOG THIS DAY..: the page of the auditor's three questions.
use crate::question::{Found, find};
use audit_page::first::say_first;
use audit_page::front::{say_file, say_signatures, say_title};
use audit_page::second::say_second;
use audit_page::third::say_third;
use file_commands::asked::{are_words, read_terms};
use file_commands::read::read_metadata_at;
use file_words::Command;
use file_words::option::{Switch, has};
use file_words::terms::Asked;
use records::capacities::OFFERS;
use records::metadata::TableMetadata;
use std::rt::HostRuntime;
use tokens::input::Input;
use tokens::output::Output;

// No line has more words.
const MOST: usize = 4096;

// This session's metadata, by its place among the files.
const THIS: usize = 2;

fn say_front(rt: HostRuntime, line: &[u8], found: Found, output: &mut Output) {
    say_title(output);
    say_file(rt, output, line, 0, found.skipped);
    say_file(rt, output, line, 1, 0);
    say_file(rt, output, line, THIS, found.skipped_then);
    say_first(
        output,
        found.judged,
        found.terms,
        has(rt, line, Switch::Clock),
        has(rt, line, Switch::File),
    );
}

fn say_of_this(rt: HostRuntime, line: &[u8], metadata: TableMetadata, output: &mut Output) {
    say_second(rt, output, metadata, line);
    say_third(output, metadata);
    say_signatures(output);
}

// This session's file is read once more for the second question and the third, and not kept beside the first, so that less stack is needed.
pub fn end_page(rt: HostRuntime, line: &[u8], input: &mut Input, output: &mut Output) {
    let held = read_metadata_at(rt, line, THIS, input, output);
    if held.number == 0 {
        say_of_this(rt, line, held.metadata, output);
    }
}

fn say_page(
    rt: HostRuntime,
    line: &[u8],
    asked: Asked,
    offers: &mut [u8; OFFERS],
    input: &mut Input,
    output: &mut Output,
) -> bool {
    match find(rt, line, asked, offers, input, output) {
        Some(found) => {
            say_front(rt, line, found, output);
            true
        }
        None => false,
    }
}

// The first question; whether the files were read, so that the others can be answered.
pub fn begin(
    rt: HostRuntime,
    line: &[u8],
    offers: &mut [u8; OFFERS],
    input: &mut Input,
    output: &mut Output,
) -> bool {
    if !are_words(rt, line, Command::Audit, 3, MOST, output) {
        return false;
    }
    match read_terms(rt, line, output) {
        Some(asked) => say_page(rt, line, asked, offers, input, output),
        None => false,
    }
}
