// soritauba COMMAND WORDS: the program. What a command has to say is in what it prints: it has no status of its own.
// The crate `commands` goes through the words, the files and the pieces, and says what came of them; here stand the calls of the run.
#![tactic(auto)]

use case_reader::limit_text::LimitText;
use case_reader::run::{Run, read_ending, read_run};
use commands::list::read_list;
use commands::tell::put_answer_of;
use commands::turn::{Turn, Wanted};
use commands::{Command, advance, begin, read_tour};
use expiries::asked::{read_asked, terms_of};
use expiries::told::{find, say_outcome, tell};
use expiry::expiring_updates;
use records::capacities::OFFERS;
use records::metadata::{MetadataLog, TableMetadata};
use records::run::{Answer, RunTerms};
use records::update::UpdateList;
use report::answer::{fault_of, say_answer};
use report::asked::say_asked;
use report::example::{Form, Shown, form_of, run_of};
use report::judged::{Judged, say_judged};
use report::shown::say_shown;
use slot_bounds::lent;
use std::num::wrapping_sub_usize;
use std::rt::HostRuntime;
use tokens::input::Input;
use tokens::output::{OUTPUT, Output};
use tokens::source::Source;
use verdict::judge_answer;

// The metadata as it is, with no changes: what is answered before the first call.
fn unasked(metadata: TableMetadata) -> Answer {
    Answer {
        number: 0,
        place: 0,
        metadata,
        changes: UpdateList::blank(),
        expired: MetadataLog::blank(),
    }
}

// The last answer is told whole, so that nothing is left out of the others.
fn run_times(
    times: u64,
    m: TableMetadata,
    us: UpdateList,
    terms: RunTerms,
    limit: &[u8],
    offers: &[u8],
) -> Answer {
    let mut answer = unasked(m);
    for _ in 0..times {
        answer = register::run(m, us, terms, limit, offers);
    }
    answer
}

// The run is handed on in its parts, and not whole, so that less stack is needed: each function that gets a record copies it.
fn ask(
    text: LimitText,
    m: TableMetadata,
    us: UpdateList,
    terms: RunTerms,
    offers: &[u8],
) -> Answer {
    let bytes = text.bytes;
    let slots: &[u8] = &bytes;
    let len = lent(slots, text.len);
    register::run(m, us, terms, &slots[..len], offers)
}

// The run, or the close by itself, again and again.
fn ask_again(
    turn: Turn,
    text: LimitText,
    m: TableMetadata,
    us: UpdateList,
    terms: RunTerms,
    offers: &[u8],
) -> Answer {
    let bytes = text.bytes;
    let slots: &[u8] = &bytes;
    let len = lent(slots, text.len);
    if turn.wanted == Wanted::Closed {
        return close_alone::close(turn.times, m, terms, &slots[..len]);
    }
    run_times(turn.times, m, us, terms, &slots[..len], offers)
}

// A run with its own list. What the list offers goes into a slice; a list as JSON wants the array.
fn read_own(first: u64, input: &mut Input, offers: &mut [u8; OFFERS]) -> Run {
    let slots: &mut [u8] = offers;
    read_run(first, input, slots)
}

// Nothing is said before the whole run is read, so that no part of its answer stands above `bad input`. A list that is given as JSON stands in the place of
// the run's own; where it is refused, nothing is run. One run is asked apart from many, so that less stack is needed.
fn run(
    rt: HostRuntime,
    turn: Turn,
    input: &mut Input,
    offers: &mut [u8; OFFERS],
    output: &mut Output,
) {
    let mut run = read_own(turn.first, input, offers);
    let mut is_asked = input.is_good();
    if is_asked && turn.wanted == Wanted::Listed {
        let read = read_list(rt, turn, offers, output);
        is_asked = read.number == 0;
        run.updates = read.list;
    }
    let slots: &[u8] = offers;
    if is_asked {
        if turn.command == Command::Run {
            say_asked(output, input.piece(), run, slots);
            let answer = ask(run.limit, run.metadata, run.updates, run.terms, slots);
            say_answer(output, run.terms, answer, slots);
        } else if turn.times == 1 && turn.wanted == Wanted::Asked {
            let answer = ask(run.limit, run.metadata, run.updates, run.terms, slots);
            put_answer_of(output, run.given, answer, slots);
        } else {
            let answer = ask_again(turn, run.limit, run.metadata, run.updates, run.terms, slots);
            put_answer_of(output, run.given, answer, slots);
        }
    }
}

// What was read of a bad question is judged too, and its verdict is not said. The ending is read behind the run, so that less stack is needed.
fn read_judged(first: u64, input: &mut Input, offers: &mut [u8]) -> Judged {
    let run = read_run(first, input, offers);
    let answer = ask(run.limit, run.metadata, run.updates, run.terms, &offers[..]);
    let ending = read_ending(run.given, input);
    let verdict = judge_answer(answer, ending);
    let fault = fault_of(verdict.number, run.metadata, run.terms);
    Judged {
        number: verdict.number,
        place: verdict.place,
        fault,
        difference: verdict.difference,
        tolerance_ms: run.terms.tolerance_ms,
        office: run.terms.office,
    }
}

fn replay(turn: Turn, input: &mut Input, offers: &mut [u8], output: &mut Output) {
    let judged = read_judged(turn.first, input, offers);
    if input.is_good() {
        say_judged(output, judged);
    }
}

// What the run of an expiry's list answers.
#[derive(Clone, Copy)]
struct Outcome {
    number: u8,
    place: usize,
}

fn outcome_of(m: TableMetadata, us: UpdateList, terms: RunTerms) -> Outcome {
    let answer = register::run(m, us, terms, b"", b"");
    Outcome {
        number: answer.number,
        place: answer.place,
    }
}

fn expire(turn: Turn, input: &mut Input, output: &mut Output) {
    let asked = read_asked(input);
    if input.is_good() {
        let terms = terms_of(asked.policy);
        let expiry = expiring_updates(asked.metadata, asked.policy);
        let fault = fault_of(expiry.number, asked.metadata, terms);
        let found = find(asked.metadata, asked.policy, expiry.number, fault);
        tell(output, turn.times, input.piece(), asked, expiry, found);
        if expiry.number == 0 && turn.times > 0 {
            let run = outcome_of(asked.metadata, expiry.updates, terms);
            say_outcome(output, run.number, run.place);
        }
    }
}

// What a run logs. No example offers anything.
fn changes_of(m: TableMetadata, us: UpdateList, terms: RunTerms, limit: &[u8]) -> UpdateList {
    let answer = register::run(m, us, terms, limit, b"");
    answer.changes
}

// Of P10 the changes of the run are run too. Of that run the changes alone are kept, and not its answer beside the other, so that less stack is needed.
fn show(step: usize, output: &mut Output) {
    let Form::Run(shown) = form_of(step) else {
        return;
    };
    let mut run = run_of(step);
    let text = run.limit;
    let bytes = text.bytes;
    let slots: &[u8] = &bytes;
    let len = lent(slots, text.len);
    if shown == Shown::ChangesOfReplay {
        run.updates = changes_of(run.metadata, run.updates, run.terms, &slots[..len]);
    }
    let answer = register::run(run.metadata, run.updates, run.terms, &slots[..len], b"");
    say_shown(output, shown, answer);
}

// What a step wants of the run.
fn answer(
    rt: HostRuntime,
    turn: Turn,
    input: &mut Input,
    offers: &mut [u8; OFFERS],
    output: &mut Output,
) {
    match turn.wanted {
        Wanted::Asked | Wanted::Listed | Wanted::Closed => run(rt, turn, input, offers, output),
        Wanted::Judged => replay(turn, input, offers, output),
        Wanted::Shown => show(wrapping_sub_usize(turn.step, 1), output),
        Wanted::GoOn | Wanted::End | Wanted::Expired | Wanted::Filed => {}
    }
}

// What asks one metadata file alone.
fn go_by_one(
    rt: HostRuntime,
    command: Command,
    line: &[u8],
    offers: &mut [u8; OFFERS],
    input: &mut Input,
    output: &mut Output,
) {
    match command {
        Command::Run => file_runs::session::run(rt, line, offers, input, output),
        Command::Expire => file_runs::expire::expire(rt, line, input, output),
        Command::Current => file_commands::moments::current(rt, line, input, output),
        Command::Import => file_commands::import::import(rt, line, input, output),
        Command::Export => file_commands::export::export(rt, line, input, output),
        Command::Audit => file_runs::audit::end_page(rt, line, input, output),
        _ => {}
    }
}

// A command that goes by files, by the words of its line.
fn go_by_files(
    rt: HostRuntime,
    command: Command,
    line: &[u8],
    offers: &mut [u8; OFFERS],
    input: &mut Input,
    output: &mut Output,
) {
    match command {
        Command::Replay => file_runs::replay::replay(rt, line, offers, input, output),
        Command::Audit => {
            if file_runs::audit::begin(rt, line, offers, input, output) {
                go_by_one(rt, command, line, offers, input, output);
                output.flush();
            }
        }
        _ => go_by_one(rt, command, line, offers, input, output),
    }
}

// What waits is written out where it is much.
fn write_half(output: &mut Output) {
    if output.len() > OUTPUT / 2 {
        output.flush();
    }
}

// The program's own line is the empty one.
fn answer_files(
    rt: HostRuntime,
    turn: Turn,
    offers: &mut [u8; OFFERS],
    input: &mut Input,
    output: &mut Output,
) {
    let mut line = io::buffer();
    match turn.line {
        Some(at) => {
            let len = read_tour(at, &mut line);
            go_by_files(rt, turn.command, &line[..len], offers, input, output);
        }
        None => {
            go_by_files(rt, turn.command, b"", offers, input, output);
            output.flush();
        }
    }
}

// The steps are counted since nothing says that an input ends; no run uses them up. What a step reads and what is answered to it
// stand beside each other, and not one below the other, so that less stack is needed. For the same reason some are called from two places: what is called
// from one alone is compiled as a part of its caller, and its stack lies below all that the caller calls.
fn main(rt: HostRuntime) {
    let mut turn = begin(rt);
    let mut input = Input::new(Source::standard(rt));
    let mut offers = [0u8; OFFERS];
    let mut output = Output::empty();
    for _ in 0..u64::MAX {
        if turn.wanted == Wanted::End {
            break;
        }
        if turn.line.is_some() {
            output.flush();
            answer(rt, turn, &mut input, &mut offers, &mut output);
        } else {
            answer(rt, turn, &mut input, &mut offers, &mut output);
            write_half(&mut output);
        }
        if turn.wanted == Wanted::Expired && turn.line.is_some() {
            output.flush();
            expire(turn, &mut input, &mut output);
        } else if turn.wanted == Wanted::Expired {
            expire(turn, &mut input, &mut output);
            write_half(&mut output);
        }
        if turn.wanted == Wanted::Filed {
            answer_files(rt, turn, &mut offers, &mut input, &mut output);
        }
        turn = advance(rt, turn, &mut input, &mut output);
    }
    output.flush();
}
