// The commands of the program, up to the run: which command a line asks for, its files, its pieces, and what is said of an answer. It goes on step by
// step, and stops where a run is to be asked, which is the caller's: so nothing here rests on the run.
// Nothing is refused: what is no command, no file or no number gets a line that says so.
#![tactic(auto)]

use crate::turn::{Stage, Turn, Wanted};
use std::rt::HostRuntime;
use tokens::input::Input;
use tokens::output::Output;

mod example;
mod file;
mod help;
mod line;
pub mod list;
mod piece;
pub mod tell;
pub mod turn;
mod words;

pub use file_words::Command;
pub use line::begin;
pub use words::read_tour;

// One step, and what is wanted then.
pub fn advance(rt: HostRuntime, mut turn: Turn, input: &mut Input, output: &mut Output) -> Turn {
    turn.wanted = Wanted::GoOn;
    match turn.stage {
        Stage::Lines => line::next_line(rt, turn, output),
        Stage::Helped(command) => help::give_help(turn, command, output),
        Stage::Unknown => help::say_unknown(rt, turn, output),
        Stage::Names => example::next_example(rt, turn, output),
        Stage::Steps => example::next_step(turn, output),
        Stage::Files => file::next_file(rt, turn, input, output),
        Stage::Opened => file::begin_file(rt, turn, input),
        Stage::Pieces => piece::end_piece(turn, input, output),
        Stage::Left => file::leave(turn, input),
        Stage::Spoilt => file::say_bad(rt, turn, input, output),
        Stage::Read => piece::read_piece(turn, input),
        Stage::Answered => piece::answer_piece(rt, turn, input, output),
    }
}
