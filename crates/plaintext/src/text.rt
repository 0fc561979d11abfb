// Text of any length to standard output: where the buffer is full, it is written out first.
use tokens::output::Output;

pub fn say_byte(output: &mut Output, byte: u8) {
    output.make_room();
    output.push(byte);
}

pub fn say(output: &mut Output, text: &[u8]) {
    for &byte in text {
        say_byte(output, byte);
    }
}

// One of the parts of a text between marks, counted from 0. Where words depend on a number, this asks for less proof than a `match` that prints.
pub fn say_between(output: &mut Output, text: &[u8], mark: u8, part: usize) {
    if let Some(words) = text.split(|byte| *byte == mark).nth(part) {
        say(output, words);
    }
}

// One of many lines, without its end.
pub fn say_line(output: &mut Output, lines: &[u8], line: usize) {
    say_between(output, lines, b'\n', line);
}
