// The words of a command line: how many there are, each by its place, and which of some a word is. A line is a text whose words are parted by
// spaces outside of quotation marks or, where it is empty, what the program was started with, behind its own name.
// Nothing is refused: a word that is not there, or of more bytes than there are slots, is an empty one.
#![tactic(auto)]

ghost use Rattle.slot_bounds.specs.Counted.{Counted};

use slot_bounds::{store_byte, with_slots};
use std::env::{Env, FillError};
use std::num::wrapping_add_usize;
use std::rt::HostRuntime;

const SPACE: u8 = b' ';

const QUOTE: u8 = b'"';

// No program is started with more words.
const MOST_ARGS: usize = 1 << 62;

// One of the parts of a text between marks, counted from 0, without the quotes in it: how many of its bytes have a slot. Between quotes a mark is
// a byte like another.
pub fn read_part(text: &[u8], mark: u8, quote: u8, part: usize, slots: &mut [u8]) -> usize
    ensures { Counted result slots.new }
{
    let mut passed: usize = 0;
    let mut len: usize = 0;
    let mut is_quoted = false;
    for byte in text {
        if *byte == quote {
            is_quoted = !is_quoted;
        } else if *byte == mark && !is_quoted {
            passed += 1;
        } else if passed == part {
            store_byte(slots, len, *byte);
            len += 1;
        }
    }
    with_slots(len, slots.len())
}

fn count_words(line: &[u8]) -> usize {
    let mut count: usize = 1;
    let mut is_quoted = false;
    for byte in line {
        if *byte == QUOTE {
            is_quoted = !is_quoted;
        } else if *byte == SPACE && !is_quoted {
            count += 1;
        }
    }
    count
}

// Whether the program was started with a word at this place, its own name at 0.
fn has_arg(rt: HostRuntime, at: usize) -> bool {
    let mut word = [0u8; 1];
    !matches!(rt.arg(at, &mut word), Err(FillError::NotPresent))
}

// How many words stand behind the program's own name.
fn count_args(rt: HostRuntime) -> usize {
    for count in 0..MOST_ARGS {
        if !has_arg(rt, count + 1) {
            return count;
        }
    }
    MOST_ARGS
}

pub fn word_count(rt: HostRuntime, line: &[u8]) -> usize {
    if !line.is_empty() {
        return count_words(line);
    }
    count_args(rt)
}

pub fn read_word(rt: HostRuntime, line: &[u8], at: usize, word: &mut [u8]) -> usize
    ensures { Counted result word.new }
{
    if !line.is_empty() {
        return read_part(line, SPACE, QUOTE, at, word);
    }
    match rt.arg(wrapping_add_usize(at, 1), word) {
        Ok(len) => len,
        Err(_) => 0,
    }
}

// Which of some lines a word is, counted from 0; as many as there are where it is none.
pub fn line_of(lines: &[u8], word: &[u8]) -> usize {
    let count = lines.iter().filter(|byte| **byte == b'\n').count();
    lines
        .split(|byte| *byte == b'\n')
        .position(|line| line == word)
        .unwrap_or(count)
}

// The same of the word at a place of a command line.
pub fn which_word(rt: HostRuntime, line: &[u8], at: usize, lines: &[u8]) -> usize {
    let mut word = io::buffer();
    let len = read_word(rt, line, at, &mut word);
    line_of(lines, &word[..len])
}
