// Numbers in a sentence: with nothing after them.
use tokens::number::{put_i64, put_u64};
use tokens::output::Output;

// The space that follows every number of the case format is not kept.
pub fn say_u64(output: &mut Output, number: u64) {
    put_u64(output, number);
    output.drop_last();
}

pub fn say_i64(output: &mut Output, number: i64) {
    put_i64(output, number);
    output.drop_last();
}

pub fn say_u8(output: &mut Output, number: u8) {
    say_u64(output, number as u64);
}

pub fn say_count(output: &mut Output, count: usize) {
    say_u64(output, count as u64);
}
