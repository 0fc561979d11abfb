// run LAST --updates LIST --clock TIME ..: what a session makes of last session's file, and the files that it asks for.
use case_reader::limit_text::LimitText;
use case_reader::more::Given;
use case_reader::run::Run;
use file_commands::asked::{are_words, is_there, read_terms};
use file_commands::read::{read_list_behind, read_metadata_at};
use file_sheets::session::write_session;
use file_words::Command;
use file_words::option::{Switch, has};
use file_words::terms::Asked;
use plaintext::text::say;
use records::capacities::OFFERS;
use records::metadata::TableMetadata;
use records::run::{Answer, RunTerms};
use records::update::UpdateList;
use report::answer::say_answer;
use report::asked::say_asked;
use slot_bounds::lent;
use std::rt::HostRuntime;
use tokens::input::Input;
use tokens::output::Output;

fn ask(
    text: LimitText,
    m: TableMetadata,
    us: UpdateList,
    terms: RunTerms,
    offers: &[u8],
) -> Answer {
    let bytes = text.bytes;
    let slots: &[u8] = &bytes;
    let len = lent(slots, text.len);
    register::run(m, us, terms, &slots[..len], offers)
}

fn say_start(
    output: &mut Output,
    asked: Asked,
    metadata: TableMetadata,
    updates: UpdateList,
    offers: &[u8],
) {
    let limit = asked.limit;
    let terms = asked.terms;
    let given = Given::none();
    let run = Run {
        limit,
        metadata,
        terms,
        updates,
        given,
    };
    say_asked(output, 1, run, offers);
}

// Files are made of an accepted run alone, if any are asked for. Whether it is accepted.
fn run_held(
    rt: HostRuntime,
    line: &[u8],
    is_written: bool,
    asked: Asked,
    metadata: TableMetadata,
    updates: UpdateList,
    offers: &[u8],
    output: &mut Output,
) -> bool {
    say_start(output, asked, metadata, updates, offers);
    let answer = ask(asked.limit, metadata, updates, asked.terms, offers);
    say_answer(output, asked.terms, answer, offers);
    if answer.number == 0 && is_written {
        if has(rt, line, Switch::Out) {
            write_session(
                rt,
                line,
                answer.metadata,
                answer.changes,
                answer.expired,
                offers,
                output,
            );
        } else {
            say(
                output,
                b"the new metadata is not written: no --out is given\n",
            );
            write_session(
                rt,
                line,
                answer.metadata,
                answer.changes,
                answer.expired,
                offers,
                output,
            );
        }
    }
    answer.number == 0
}

// Whether a file is to be made.
fn asks_for_file(rt: HostRuntime, line: &[u8]) -> bool {
    has(rt, line, Switch::Out) || has(rt, line, Switch::Log) || has(rt, line, Switch::Expired)
}

// The run is called from two places, so that its stack does not lie below the reading of files.
fn read_and_run(
    rt: HostRuntime,
    line: &[u8],
    asked: Asked,
    offers: &mut [u8; OFFERS],
    input: &mut Input,
    output: &mut Output,
) {
    let held = read_metadata_at(rt, line, 0, input, output);
    if held.number == 0 {
        let listed = read_list_behind(rt, line, Switch::Updates, offers, input, output);
        let slots: &[u8] = offers;
        if listed.number != 0 {
            return;
        }
        if asks_for_file(rt, line) {
            let is_accepted = run_held(
                rt,
                line,
                true,
                asked,
                held.metadata,
                listed.list,
                slots,
                output,
            );
            if !is_accepted {
                say(output, b"no file is written\n");
            }
        } else {
            run_held(
                rt,
                line,
                false,
                asked,
                held.metadata,
                listed.list,
                slots,
                output,
            );
        }
    }
}

fn is_asked(rt: HostRuntime, line: &[u8], output: &mut Output) -> bool {
    if !are_words(rt, line, Command::Run, 1, 1, output) {
        return false;
    }
    is_there(rt, line, Switch::Clock, output) && is_there(rt, line, Switch::Updates, output)
}

pub fn run(
    rt: HostRuntime,
    line: &[u8],
    offers: &mut [u8; OFFERS],
    input: &mut Input,
    output: &mut Output,
) {
    if is_asked(rt, line, output) {
        if let Some(asked) = read_terms(rt, line, output) {
            read_and_run(rt, line, asked, offers, input, output);
        }
    }
}
