// A command line, from its first word on: the program's own, or one of the tour with what is asked above it.
use crate::turn::{Stage, Turn, Wanted};
use crate::words::{
    asks_for_help, asks_for_list, asks_for_run, command_at, first_moment, goes_by_files, is_word,
    read_tour,
};
use command::word_count;
use file_words::Command;
use plaintext::text::say;
use report::example::EXAMPLES;
use std::num::{wrapping_add_usize, wrapping_sub_usize};
use std::rt::HostRuntime;
use tokens::output::Output;

// How many lines the tour has, and how many with the other example files: two for each of its steps.
const TOUR_LINES: usize = 46;

const ALL_LINES: usize = 92;

// The program's own line, or the tour, with the word `all` whole.
pub fn begin(rt: HostRuntime) -> Turn {
    let own = b"";
    if command_at(rt, own, 0) != Some(Command::Tour) || asks_for_help(rt, own) {
        return Turn::before(None, 1);
    }
    if is_word(rt, own, 1, b"all") {
        return Turn::before(Some(0), ALL_LINES / 2);
    }
    Turn::before(Some(0), TOUR_LINES / 2)
}

// What stands above the command line of a step of the tour, and the line itself.
fn say_heading(asked: usize, line: &[u8], output: &mut Output) {
    let mut heading = io::buffer();
    let len = read_tour(asked, &mut heading);
    say(output, &heading[..len]);
    say(output, b"\n$ soritauba ");
    say(output, line);
    say(output, b"\n");
}

// Names of examples, or all where there is none.
fn begin_examples(mut turn: Turn, words: usize) -> Turn {
    turn.stage = Stage::Names;
    if words <= 1 {
        turn.at = 0;
        turn.last = EXAMPLES;
        turn.name = None;
    } else {
        turn.at = 1;
        turn.last = words;
        turn.name = Some(1);
    }
    turn
}

// The words that name files, or standard input where there is none.
fn begin_files(mut turn: Turn, first: usize, last: usize) -> Turn {
    turn.stage = Stage::Files;
    turn.at = first;
    turn.last = last;
    if first >= last {
        turn.stage = Stage::Opened;
        turn.name = None;
        turn.is_input = true;
    }
    turn
}

// The files of expiries. Where their runs are to be written, none is asked.
fn begin_expiries(mut turn: Turn, is_written: bool, words: usize) -> Turn {
    turn.times = 1;
    if is_written {
        turn.times = 0;
        begin_files(turn, 2, words)
    } else {
        begin_files(turn, 1, words)
    }
}

// One run, with the list that the word behind `--updates` names. Standard input is the list or the run, and not both: what the command wants is said
// then, and where there is no list or more than one file.
fn begin_listed(rt: HostRuntime, mut turn: Turn, line: &[u8], words: usize) -> Turn {
    let is_input = is_word(rt, line, 2, b"-");
    turn.list = Some(2);
    if words == 4 || words == 3 && !is_input {
        begin_files(turn, 3, words)
    } else {
        turn
    }
}

// What `help` says: of the command that its word names, or the list.
fn begin_help(mut turn: Turn, command: Option<Command>, words: usize) -> Turn {
    turn.at = 1;
    if let Some(command) = command {
        turn.stage = Stage::Helped(command);
    } else if words > 1 {
        turn.stage = Stage::Unknown;
    }
    turn
}

// The file with the metadata stands before the moments, if there is one.
fn begin_current(turn: Turn, moment: usize, words: usize) -> Turn {
    if moment < words {
        begin_files(turn, 2, moment)
    } else {
        turn
    }
}

// What goes by files is the caller's. Without words behind the command, what it wants is said.
fn begin_filed(mut turn: Turn, words: usize) -> Turn {
    if words > 1 {
        turn.wanted = Wanted::Filed;
        turn.stage = Stage::Lines;
    }
    turn
}

// What the command wants is said where nothing else is begun: without moments, by `current` too.
fn begin_command(rt: HostRuntime, mut turn: Turn, line: &[u8]) -> Turn {
    let words = word_count(rt, line);
    turn.at = 0;
    turn.list = None;
    let Some(command) = command_at(rt, line, 0) else {
        turn.stage = Stage::Unknown;
        return turn;
    };
    turn.stage = Stage::Helped(command);
    turn.command = command;
    if command == Command::Help {
        return begin_help(turn, command_at(rt, line, 1), words);
    }
    if asks_for_help(rt, line) {
        return turn;
    }
    if goes_by_files(rt, command, line) {
        return begin_filed(turn, words);
    }
    match command {
        Command::Examples => begin_examples(turn, words),
        Command::Expire => begin_expiries(turn, asks_for_run(rt, line), words),
        Command::Run if asks_for_list(rt, line) => begin_listed(rt, turn, line, words),
        Command::Current => begin_current(turn, first_moment(rt, line), words),
        _ => begin_files(turn, 1, words),
    }
}

pub fn next_line(rt: HostRuntime, mut turn: Turn, output: &mut Output) -> Turn {
    let mut line = io::buffer();
    if turn.lines_left == 0 {
        turn.wanted = Wanted::End;
        return turn;
    }
    turn.lines_left -= 1;
    if let Some(before) = turn.line {
        turn.line = Some(wrapping_add_usize(before, 2));
    }
    let len = turn.read_line(&mut line);
    if let Some(at) = turn.line {
        say_heading(wrapping_sub_usize(at, 1), &line[..len], output);
    }
    begin_command(rt, turn, &line[..len])
}
