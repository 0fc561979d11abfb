// The files of a command, each read by itself, up to the first that can not be read. What can not be read ends the command with a line that says where.
use crate::turn::{Stage, Turn};
use file_words::Command;
use plaintext::fault::{say_fault, say_unopened};
use plaintext::text::say;
use std::num::wrapping_add_usize;
use std::rt::HostRuntime;
use tokens::input::Input;
use tokens::output::Output;
use tokens::source::Source;

// The input turns to the file.
pub fn next_file(rt: HostRuntime, mut turn: Turn, input: &mut Input, output: &mut Output) -> Turn {
    let mut name = io::buffer();
    turn.stage = Stage::Lines;
    if turn.at >= turn.last {
        return turn;
    }
    turn.name = Some(turn.at);
    turn.at = wrapping_add_usize(turn.at, 1);
    let len = turn.read_word(rt, turn.name, &mut name);
    match Source::open(rt, &name[..len]) {
        Source::Nothing => say_unopened(output, &name[..len]),
        source => {
            input.turn_to(source);
            turn.is_input = false;
            turn.stage = Stage::Opened;
        }
    }
    turn
}

// What is open is read from its beginning.
pub fn begin_file(rt: HostRuntime, mut turn: Turn, input: &mut Input) -> Turn {
    if turn.is_input {
        input.turn_to(Source::standard(rt));
    } else {
        input.restart();
    }
    turn.first = 0;
    turn.stage = Stage::Pieces;
    turn
}

// At the end of an input, or where it is bad.
pub fn leave(mut turn: Turn, input: &mut Input) -> Turn {
    if !turn.is_input {
        input.close();
    }
    turn.stage = Stage::Spoilt;
    if input.is_good() {
        turn.stage = Stage::Files;
    }
    turn
}

// In the words of the case format.
fn say_bad_case(output: &mut Output) {
    say(output, b"bad case\n");
    output.flush();
}

// What an input of a command is made of; nothing where it is one thing.
fn piece_of(command: Command) -> &'static [u8] {
    match command {
        Command::Run => b"run",
        Command::Replay => b"question",
        Command::Expire => b"expiry",
        Command::Cases => b"case",
        _ => b"",
    }
}

fn say_where(rt: HostRuntime, turn: Turn, input: &Input, output: &mut Output) {
    let mut name = io::buffer();
    let len = turn.read_word(rt, turn.name, &mut name);
    say_fault(output, &name[..len], piece_of(turn.command), input);
}

// Of a case, where and why go to standard error, so that answers can be compared line by line. What is bad ends the command.
pub fn say_bad(rt: HostRuntime, mut turn: Turn, input: &Input, output: &mut Output) -> Turn {
    turn.stage = Stage::Lines;
    if turn.command == Command::Cases {
        say_bad_case(output);
        say_where(rt, turn, input, output);
        output.flush_aside();
    } else {
        say_where(rt, turn, input, output);
    }
    turn
}
