// The words that name files.
ghost use Rattle.slot_bounds.specs.Counted.{Counted};

use crate::option::{is_option, next_place};
use command::{read_word, word_count};
use std::num::wrapping_add_usize;
use std::rt::HostRuntime;
use tokens::source::Source;

// The place of one of them, counted from 0, if there are so many.
pub fn file_at(rt: HostRuntime, line: &[u8], file: usize) -> Option<usize> {
    let n = word_count(rt, line);
    let mut passed: usize = 0;
    let mut at = 1;
    for _ in 0..n {
        if at >= n {
            break;
        }
        if !is_option(rt, line, at) {
            if passed == file {
                return Some(at);
            }
            passed = wrapping_add_usize(passed, 1);
        }
        at = next_place(rt, line, at);
    }
    None
}

// How many there are, up to this many.
pub fn count_files(rt: HostRuntime, line: &[u8], most: usize) -> usize {
    for i in 0..most {
        if file_at(rt, line, i).is_none() {
            return i;
        }
    }
    most
}

pub fn read_file_name(rt: HostRuntime, line: &[u8], file: usize, name: &mut [u8]) -> usize
    ensures { Counted result name.new }
{
    match file_at(rt, line, file) {
        Some(at) => read_word(rt, line, at, name),
        None => 0,
    }
}

// What a text begins with, past spaces and line ends; 0 where it is nothing but these.
fn first_byte(text: &[u8]) -> u8 {
    for &byte in text {
        if byte != b' ' && byte != b'\n' && byte != b'\r' && byte != b'\t' {
            return byte;
        }
    }
    0
}

// What begins with `{` or `[` is JSON, and everything else is in the case format.
pub fn is_json_text(text: &[u8]) -> bool {
    let byte = first_byte(text);
    byte == b'{' || byte == b'['
}

// The same of a file that is named. What can not be read is none.
pub fn is_json(rt: HostRuntime, name: &[u8]) -> bool {
    let mut text = [0u8; 64];
    let mut source = Source::open(rt, name);
    match source.read(&mut text) {
        Ok(count) => is_json_text(&text[..count]),
        Err(_) => false,
    }
}

// Whether the file at a place among the files is JSON.
pub fn is_json_at(rt: HostRuntime, line: &[u8], file: usize) -> bool {
    let mut name = io::buffer();
    let len = read_file_name(rt, line, file, &mut name);
    is_json(rt, &name[..len])
}
