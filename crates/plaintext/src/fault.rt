// What is wrong with an input, and where, in one line, as `bad input: may.case, run 2, number 15, at byte 230: there should be a number from 0 to
// 255, but the input ends`. Runs, numbers and bytes are counted from 1. Standard input has no name.
use crate::name::say_escaped;
use crate::number::{say_count, say_u8, say_u64};
use crate::text::say;
use tokens::input::Input;
use tokens::output::Output;
use tokens::wanted::{Fault, Found, Wanted};

// A word and a number, and what parts them from the next.
fn say_counted(output: &mut Output, word: &[u8], number: usize, after: &[u8]) {
    say(output, word);
    say_count(output, number);
    say(output, after);
}

// `piece` is what the input is made of: a run, a question. An input that is one piece is not counted.
fn say_where(output: &mut Output, piece: &[u8], fault: Fault) {
    if fault.piece > 0 {
        say(output, piece);
        say_counted(output, b" ", fault.piece, b", ");
    }
    say_counted(output, b"number ", fault.number, b", ");
    say_counted(output, b"at byte ", fault.byte, b": ");
}

// Words, the bound last.
fn say_bound(output: &mut Output, words: &[u8], bound: u64) {
    say(output, words);
    say_u64(output, bound);
}

fn say_wanted(output: &mut Output, wanted: Wanted) {
    match wanted {
        Wanted::UpTo(most) => say_bound(output, b"there should be a number from 0 to ", most),
        Wanted::Signed(half) => {
            say_bound(output, b"there should be a number from -", half);
            if half > 0 {
                say_bound(output, b" to ", half - 1);
            }
        }
        Wanted::Case(highest) => say_bound(
            output,
            b"there should be the kind of a case, from 1 to ",
            highest,
        ),
        Wanted::Run(kind) => {
            say_bound(output, b"there should be the kind of a run, 1 or ", kind);
        }
        Wanted::Tag(last) => {
            say_bound(
                output,
                b"there should be a tag of at most 7 and above ",
                last,
            );
        }
        Wanted::Repeated(kind) => {
            say_bound(output, b"there should be a kind from 0 to 3 or ", kind);
        }
        Wanted::Owners(refs) => say_bound(
            output,
            b"there should be as many owners as refs, which is ",
            refs,
        ),
        Wanted::End => say(output, b"there should be the end of the input"),
        Wanted::Expiry => say(output, b"there should be the kind of an expiry, 12"),
    }
}

// Nothing is said of another number.
fn say_found(output: &mut Output, found: Found) {
    match found {
        Found::Number | Found::Nothing => {}
        Found::End => say(output, b", but the input ends"),
        Found::Byte(byte) => {
            say(output, b", but there is a byte that is no digit, of value ");
            say_u8(output, byte);
        }
    }
}

// What every such line begins with.
fn say_bad_input(output: &mut Output, name: &[u8], after: &[u8]) {
    say(output, b"bad input: ");
    if name.len() > 0 {
        say_escaped(output, name, name.len());
        say(output, after);
    }
}

pub fn say_unopened(output: &mut Output, name: &[u8]) {
    say_bad_input(output, name, b": ");
    say(output, b"there is no such file, or it may not be read\n");
}

pub fn say_fault(output: &mut Output, name: &[u8], piece: &[u8], input: &Input) {
    let fault = input.fault();
    say_bad_input(output, name, b", ");
    say_where(output, piece, fault);
    match fault.wanted {
        Some(wanted) => say_wanted(output, wanted),
        None => say(output, b"the input could not be read"),
    }
    say_found(output, fault.found);
    say(output, b"\n");
}
