// The runs of the examples P1 to P12 of document 01, in the case format, as the crate `rules` has them in Examples. An example is made of steps,
// each a run or a call of a leaf.
use case_reader::run::{RUN, Run, read_run};
use tokens::input::Input;
use tokens::source::Source;

pub const EXAMPLES: usize = 12;

// The step with which an example begins, by its number from 0; the next example's is behind its last.
pub fn first_step(example: usize) -> usize {
    match example {
        0 => 0,
        1 => 2,
        2..=5 => example + 2,
        6..=8 => example + 4,
        9 => 13,
        10 => 15,
        11 => 16,
        _ => 18,
    }
}

// What is shown of the answer of a step's run.
#[derive(Clone, Copy, PartialEq, Eq)]
pub enum Shown {
    Sequence,
    NextRow,
    Updated,
    History,
    Files,
    Changes,
    ChangesOfReplay,
}

// What a step calls that is no run: the limits of texts, or walks.
#[derive(Clone, Copy)]
pub enum Leaf {
    Limits,
    Walks,
}

#[derive(Clone, Copy)]
pub enum Form {
    Run(Shown),
    Leaf(Leaf),
}

pub fn form_of(step: usize) -> Form {
    match step {
        0..=3 => Form::Run(Shown::Sequence),
        7..=9 => Form::Run(Shown::NextRow),
        10 => Form::Leaf(Leaf::Limits),
        11 => Form::Run(Shown::Files),
        12 => Form::Leaf(Leaf::Walks),
        13 => Form::Run(Shown::Changes),
        14 => Form::Run(Shown::ChangesOfReplay),
        16 | 17 => Form::Run(Shown::Updated),
        _ => Form::Run(Shown::History),
    }
}

// The metadata that the run of a step starts from, by its line below.
fn start_of(step: usize) -> usize {
    match step {
        0 | 1 => 0,
        7..=9 => 2,
        11 => 3,
        16 | 17 => 4,
        _ => 1,
    }
}

// The run of a step. Its text is the line of its metadata and behind it the line of its terms and updates.
pub fn run_of(step: usize) -> Run {
    // Version 2, snapshot 1 current since 100000; version 2, history 1, 2, 3 at 100000, 200000, 300000, current 3, last sequence number 5;
    // version 3, next row id 10; version 2, three metadata files, last update 9000; version 2, last update -100000.
    let starts =
        b"2 0 0 0 0 0 0 0 0 0 0 0 0 0 0 0 0 1 116 100000 1 0 1 1 1 1 1 0 0 1 100000 0 0 0 1 4 109 97 105 110 1 1 0 0 0 0 0 0 1 1 100000 0 1 0 1 1 0 1 0 0 0\n\
        2 0 0 0 0 0 0 0 0 0 0 0 0 0 0 0 0 1 116 300000 5 0 1 1 3 3 1 0 0 1 100000 0 0 0 2 1 1 2 200000 0 0 0 3 1 2 5 300000 0 0 0 \
        1 4 109 97 105 110 3 1 0 0 0 0 0 0 3 1 100000 2 200000 3 300000 0 1 0 1 1 0 1 0 0 0\n\
        3 0 0 0 0 0 0 0 0 0 0 0 0 0 0 0 0 1 116 0 0 10 1 0 0 0 0 0 0 1 0 1 1 0 1 0 0 0\n\
        2 0 0 0 0 0 0 0 0 0 0 0 0 0 0 0 0 1 116 9000 0 0 1 0 0 0 0 0 3 1 97 1 1 98 2 1 99 3 1 0 1 1 0 1 0 0 0\n\
        2 0 0 0 0 0 0 0 0 0 0 0 0 0 0 0 0 1 116 -100000 0 0 1 0 0 0 0 0 0 1 0 1 1 0 1 0 0 0\n";
    // The clock, the file, the limit text, the updates. P7 and P9 have none of their own.
    let asked = b" 500000 0 0 1 4 2 1 1 2 40000 0 0 0\n\
        \x20500000 0 0 1 4 2 1 1 2 39999 0 0 0\n\
        \x20500000 0 0 1 4 4 1 3 5 400000 0 0 0\n\
        \x20500000 0 0 1 4 4 0 0 3 400000 0 0 0\n\
        \x20500000 0 0 1 6 1 2\n\
        \x20500000 0 0 1 6 1 3\n\
        \x20500000 0 0 4 4 4 1 3 6 400000 0 0 0 4 5 1 4 7 410000 0 0 0 7 4 109 97 105 110 4 1 0 0 0 0 0 0 7 4 109 97 105 110 5 1 0 0 0 0 0 0\n\
        \x20500000 0 0 1 4 1 0 0 1 400000 1 10 18446744073709551605\n\
        \x20500000 0 0 1 4 1 0 0 1 400000 1 10 18446744073709551606\n\
        \x20500000 0 0 1 4 1 0 0 1 400000 1 9 1\n\
        \x20500000 0 0 0\n\
        \x20500000 1 1 100 1 1 50 0\n\
        \x20500000 0 0 0\n\
        \x20500000 0 0 1 11 1 7\n\
        \x20500000 0 0 1 11 1 7\n\
        \x20500000 0 0 2 6 1 3 4 3 1 2 6 400000 0 0 0\n\
        \x20500000 0 0 1 4 1 0 0 1 -60000 0 0 0\n\
        \x20500000 0 0 1 4 1 0 0 1 -60001 0 0 0\n";
    let mut input = Input::new(Source::Nothing);
    input.hold_line(starts, start_of(step));
    input.hold_line(asked, step);
    // No example offers anything, so there is no room for what is offered.
    let mut offers = [0u8; 1];
    read_run(RUN, &mut input, &mut offers)
}
