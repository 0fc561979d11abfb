// One piece of an input: a run, a question, an expiry, a case, a time; or the one thing that it holds. A run is left to the caller.
use crate::turn::{Stage, Turn, Wanted};
use crate::words::first_moment;
use case_reader::case::{end_answer, read_case};
use case_reader::run::{RUN, RUN_GIVEN_MORE, read_first_of_run};
use expiries::asked::read_first_of_expiry;
use file_words::Command;
use std::rt::HostRuntime;
use tokens::field::read_u64;
use tokens::input::Input;
use tokens::output::Output;
use tokens::wanted;
use trials::{WALK_OVER_IDS, WALK_OVER_RECORDS};

// What stands in front where no piece follows.
const NO_PIECE: u64 = 0;

// The kind that `repeat` has for the close by itself of a run's metadata, with what follows the kind of a run.
const CLOSE: u64 = 0;

// Whether one piece of an input is read.
fn is_alone(turn: Turn) -> bool {
    turn.command == Command::Repeat || turn.list.is_some()
}

// What was read last may have been bad. After what `repeat` was given, and after a run with a list, nothing is read; a time and the metadata of `current` are answered as they are
// read.
pub fn end_piece(mut turn: Turn, input: &Input, output: &mut Output) -> Turn {
    end_answer(input, output);
    turn.stage = match turn.command {
        _ if !input.is_good() => Stage::Left,
        _ if is_alone(turn) && turn.first > 0 => Stage::Left,
        Command::Current | Command::Dates => Stage::Answered,
        _ => Stage::Read,
    };
    turn
}

fn read_first(mut turn: Turn, input: &mut Input) -> Turn {
    turn.first = read_first_of_run(input);
    turn.times = 1;
    turn.stage = Stage::Pieces;
    if turn.first == NO_PIECE {
        turn.stage = Stage::Left;
    } else if turn.command == Command::Replay {
        turn.wanted = Wanted::Judged;
    } else if turn.list.is_some() {
        turn.wanted = Wanted::Listed;
    } else {
        turn.wanted = Wanted::Asked;
    }
    turn
}

fn read_expiry(mut turn: Turn, input: &mut Input) -> Turn {
    turn.first = read_first_of_expiry(input);
    turn.stage = Stage::Pieces;
    if turn.first == NO_PIECE {
        turn.stage = Stage::Left;
    } else {
        turn.wanted = Wanted::Expired;
    }
    turn
}

fn read_kind(mut turn: Turn, input: &mut Input) -> Turn {
    let kind = read_case(input, wanted::Wanted::Case(trials::KINDS), trials::KINDS);
    turn.first = kind;
    turn.times = 1;
    turn.stage = Stage::Pieces;
    match kind {
        NO_PIECE => turn.stage = Stage::Left,
        RUN | RUN_GIVEN_MORE => turn.wanted = Wanted::Asked,
        _ => turn.stage = Stage::Answered,
    }
    turn
}

// One case an input: what follows it is not read.
fn read_repeated(mut turn: Turn, input: &mut Input) -> Turn {
    turn.times = read_u64(input);
    let kind = read_u64(input);
    turn.first = kind;
    turn.stage = Stage::Pieces;
    match kind {
        CLOSE => {
            turn.first = RUN;
            turn.wanted = Wanted::Closed;
        }
        RUN | RUN_GIVEN_MORE => turn.wanted = Wanted::Asked,
        WALK_OVER_IDS | WALK_OVER_RECORDS => turn.stage = Stage::Answered,
        _ => input.spoil(wanted::Wanted::Repeated(RUN_GIVEN_MORE)),
    }
    turn
}

// A run is wanted then; of `cases`, if it is one.
pub fn read_piece(turn: Turn, input: &mut Input) -> Turn {
    match turn.command {
        Command::Cases => read_kind(turn, input),
        Command::Repeat => read_repeated(turn, input),
        Command::Expire => read_expiry(turn, input),
        _ => read_first(turn, input),
    }
}

fn say_moments(rt: HostRuntime, turn: Turn, input: &mut Input, output: &mut Output) {
    let mut line = io::buffer();
    let len = turn.read_line(&mut line);
    let from = first_moment(rt, &line[..len]);
    current::say_answers(rt, &line[..len], from, input, output);
}

fn answer_case(turn: Turn, input: &mut Input, output: &mut Output) {
    trials::answer(turn.first, turn.times, input, output);
    if input.is_good() {
        output.end_line();
    }
}

// Of `current` and `dates`, and cases that are no runs.
pub fn answer_piece(
    rt: HostRuntime,
    mut turn: Turn,
    input: &mut Input,
    output: &mut Output,
) -> Turn {
    turn.stage = Stage::Pieces;
    match turn.command {
        Command::Current => {
            say_moments(rt, turn, input, output);
            turn.stage = Stage::Left;
        }
        Command::Dates => {
            if !trials::dates::next(input, output) {
                turn.stage = Stage::Left;
            }
        }
        _ => answer_case(turn, input, output),
    }
    turn
}
