// What is kept of a number: the magnitude of its digits before point and exponent.
ghost use Rattle.std.specs.Prelude.{◌≡◌, ◌+◌, ◌*◌, ◌^◌, ltb};
ghost use Rattle.json_machine.specs.Digest.{blank_number, with_digit, number_with};

use crate::byte::is_digit;
pub use json_machine::Number;

pub fn blank() -> Number
    ensures { result ≡ blank_number }
{
    Number {
        magnitude: 0,
        over: 0,
    }
}

// Whether the magnitude with one more digit stays below 2^64.
fn has_room(magnitude: u64, digit: u64) -> bool
    ensures { result ≡ ltb (magnitude * 10 + digit) (2 ^ 64) }
{
    magnitude <= (u64::MAX - digit) / 10
}

#[tactic(auto, unfolding(json_machine::specs::Digest::with_digit))]
fn with_digit(n: Number, digit: u64) -> Number
    ensures { result ≡ with_digit n digit }
{
    if n.over > 0 {
        return n;
    }
    if has_room(n.magnitude, digit) {
        return Number {
            magnitude: n.magnitude * 10 + digit,
            over: 0,
        };
    }
    Number { over: 1, ..n }
}

// The number with one more byte before its point and its exponent: a digit, or the minus, which counts nothing.
#[tactic(auto, unfolding(json_machine::specs::Digest::number_with, json_rule::specs::Lexemes::is_digit))]
pub fn with_byte(n: Number, byte: u8) -> Number
    ensures { result ≡ number_with n byte }
{
    if is_digit(byte) {
        return with_digit(n, u64::from(byte - b'0'));
    }
    n
}
