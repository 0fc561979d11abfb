// Where the program is: which line, which command, which stage of it, and what is wanted.
ghost use Rattle.slot_bounds.specs.Counted.{Counted};

use crate::words::read_tour;
use command::read_word;
use file_words::Command;
use std::rt::HostRuntime;

// What is wanted after a step.
#[derive(Clone, Copy, PartialEq, Eq, Debug)]
pub enum Wanted {
    // The next step.
    GoOn,
    End,
    // A run with its own list of updates.
    Asked,
    // A run with a list of updates as JSON.
    Listed,
    // The verdict on a stored log.
    Judged,
    // The run of an example.
    Shown,
    // A close by itself.
    Closed,
    // An expiry with the run of its list.
    Expired,
    // A command that goes by files.
    Filed,
}

// What is to be done next.
#[derive(Clone, Copy, PartialEq, Eq, Debug)]
pub enum Stage {
    // Of what needs no input: a line is to be begun, help to be given, an unknown word to be named; an example is to be begun, a step of it to be made.
    Lines,
    Helped(Command),
    Unknown,
    Names,
    Steps,
    // Of an input: a file is to be opened, its reading to be begun, a piece of it to be ended; it is to be left, or its fault to be said.
    Files,
    Opened,
    Pieces,
    Left,
    Spoilt,
    // Of a piece: a run or the kind of a case is to be read; what is no run to be answered.
    Read,
    Answered,
}

#[derive(Clone, Copy)]
pub struct Turn {
    pub wanted: Wanted,
    pub stage: Stage,
    // The line of the tour that is gone through; none for the program's own.
    pub line: Option<usize>,
    // How many lines are still to be begun.
    pub lines_left: usize,
    pub command: Command,
    // The next word, and behind which there is none; of the examples, where none is named, the next example. Of an unknown word, its place.
    pub at: usize,
    pub last: usize,
    // The place of the word that names the input or the example; none for standard input, which has no name, and where all examples are asked for.
    pub name: Option<usize>,
    // The place of the word that names the list of updates, as JSON, with which `run` is to run; none where it has its own.
    pub list: Option<usize>,
    // Whether standard input is read, and no file.
    pub is_input: bool,
    // The number with which a run or a case starts, and how often it is asked: by `expire --run`, which writes the run of its list, not at all.
    pub first: u64,
    pub times: u64,
    // The next step of an example, and the one behind its last.
    pub step: usize,
    pub last_step: usize,
}

impl Turn {
    // Before the first of some lines.
    pub fn before(line: Option<usize>, lines_left: usize) -> Turn {
        Turn {
            wanted: Wanted::GoOn,
            stage: Stage::Lines,
            line,
            lines_left,
            command: Command::Help,
            at: 0,
            last: 0,
            name: None,
            list: None,
            is_input: true,
            first: 0,
            times: 0,
            step: 0,
            last_step: 0,
        }
    }

    // The line that is gone through. The program's own is the empty one.
    pub fn read_line(self, line: &mut [u8]) -> usize
        ensures { Counted result line.new }
    {
        match self.line {
            Some(at) => read_tour(at, line),
            None => 0,
        }
    }

    // A word of that line; an empty one where there is no place.
    pub fn read_word(self, rt: HostRuntime, at: Option<usize>, word: &mut [u8]) -> usize
        ensures { Counted result word.new }
    {
        let mut line = io::buffer();
        let Some(at) = at else {
            return 0;
        };
        let len = self.read_line(&mut line);
        read_word(rt, &line[..len], at, word)
    }
}
