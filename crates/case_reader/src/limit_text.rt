// The text of a limit, which has any length. What is kept of it has the same limit (the crate `kept_text`).
ghost use Rattle.slot_bounds.specs.Counted.{Counted};

use kept_text::limit::keep_byte;
use tokens::field::{read_count, read_flag, read_u8};
use tokens::input::Input;

pub const LIMIT_TEXT: usize = 40;

// The bytes that are kept, and how many.
#[derive(Clone, Copy)]
pub struct LimitText {
    pub bytes: [u8; LIMIT_TEXT],
    pub len: usize,
}

fn read_bytes(input: &mut Input, text: &mut [u8]) -> usize
    ensures { Counted result text.new }
{
    let count = read_count(input);
    let mut len: usize = 0;
    for _ in 0..count {
        if !input.is_good() {
            break;
        }
        let byte = read_u8(input);
        len = keep_byte(text, len, byte);
    }
    len
}

// A flag, and the text if it is set. A text that is not given has the limit of an empty one.
pub fn read_limit_text(input: &mut Input) -> LimitText {
    let mut bytes = [0u8; LIMIT_TEXT];
    let mut len: usize = 0;
    if read_flag(input) {
        len = read_bytes(input, &mut bytes);
    }
    LimitText { bytes, len }
}
