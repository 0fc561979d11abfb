// Numbers in decimal digits, each behind the bytes that stand in front of it, and both left out where they are not wanted.
ghost use Rattle.std.specs.Prelude.{◌++◌};
ghost use Rattle.file_rule.specs.Written.{natural_text, number_text};
ghost use Rattle.file_text.specs.Puts.{Puts, only_if};

use crate::bytes::{put, put_if};

// No number of 64 bits has more.
const DIGITS: usize = 20;

// A number of any field.
#[derive(Clone, Copy)]
pub struct Number(pub i64);

// From the last digit to the first.
fn put_digits(buffer: &mut [u8], at: usize, number: u64) -> usize
    ensures { Puts buffer.old at (natural_text number) result buffer.new }
{
    let mut digits = [0u8; DIGITS];
    let mut rest = number;
    for i in (0..DIGITS).rev() {
        digits[i] = b'0' + (rest % 10) as u8;
        if rest < 10 {
            return put(buffer, at, &digits[i..]);
        }
        rest /= 10;
    }
    put(buffer, at, &digits)
}

pub fn put_natural(buffer: &mut [u8], at: usize, wanted: bool, before: &[u8], number: u64) -> usize
    ensures { Puts buffer.old at (only_if wanted (before.now ++ natural_text number)) result buffer.new }
{
    if !wanted {
        return at;
    }
    let at = put(buffer, at, before);
    put_digits(buffer, at, number)
}

pub fn put_number(
    buffer: &mut [u8],
    at: usize,
    wanted: bool,
    before: &[u8],
    number: Number,
) -> usize
    ensures { Puts buffer.old at (only_if wanted (before.now ++ number_text number.0)) result buffer.new }
{
    if !wanted {
        return at;
    }
    let at = put(buffer, at, before);
    let Number(value) = number;
    let at = put_if(buffer, at, value < 0, b"-");
    put_digits(buffer, at, value.unsigned_abs())
}
