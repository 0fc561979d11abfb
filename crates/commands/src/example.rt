// The examples of document 01 that are named, a line each, in the order given; or all, each line with its name in front.
use crate::turn::{Stage, Turn, Wanted};
use command::line_of;
use plaintext::name::say_escaped;
use plaintext::text::{say, say_line};
use report::example::{EXAMPLES, Form, first_step, form_of};
use report::leaf::say_leaf;
use report::shown::say_label;
use std::num::wrapping_add_usize;
use std::rt::HostRuntime;
use tokens::output::Output;

fn begin_example(mut turn: Turn, example: usize) -> Turn {
    turn.step = first_step(example);
    turn.last_step = first_step(wrapping_add_usize(example, 1));
    turn.stage = Stage::Steps;
    turn
}

// The example that the word at a place names.
fn next_named(rt: HostRuntime, mut turn: Turn, output: &mut Output) -> Turn {
    let mut name = io::buffer();
    let names = b"P1\nP2\nP3\nP4\nP5\nP6\nP7\nP8\nP9\nP10\nP11\nP12\n";
    let len = turn.read_word(rt, turn.name, &mut name);
    let example = line_of(names, &name[..len]);
    if example < EXAMPLES {
        begin_example(turn, example)
    } else {
        say(output, b"no example of that name: ");
        say_escaped(output, &name, len);
        say(output, b"\n");
        turn.stage = Stage::Names;
        turn
    }
}

// Where all are asked for, each has its name in front.
pub fn next_example(rt: HostRuntime, mut turn: Turn, output: &mut Output) -> Turn {
    let prefixes = b"P1 \nP2 \nP3 \nP4 \nP5 \nP6 \nP7 \nP8 \nP9 \nP10 \nP11 \nP12 \n";
    let at = turn.at;
    turn.at = wrapping_add_usize(at, 1);
    if at >= turn.last {
        turn.stage = Stage::Lines;
        return turn;
    }
    if turn.name.is_none() {
        say_line(output, prefixes, at);
        return begin_example(turn, at);
    }
    turn.name = Some(at);
    next_named(rt, turn, output)
}

// The step is told by its caller where it is a run.
pub fn next_step(mut turn: Turn, output: &mut Output) -> Turn {
    let step = turn.step;
    turn.step = wrapping_add_usize(step, 1);
    if step >= turn.last_step {
        turn.stage = Stage::Names;
        say(output, b"\n");
        return turn;
    }
    say_label(output, step);
    match form_of(step) {
        Form::Run(_) => turn.wanted = Wanted::Shown,
        Form::Leaf(leaf) => say_leaf(output, leaf),
    }
    turn
}
