// Tokens: an optional `-` and decimal digits, between spaces and newlines.
ghost use Rattle.std.specs.Prelude.{◌≡◌, ◌+◌, ◌*◌, nat_le};
ghost use Rattle.tokens.specs.Token.{blank, is_digit, is_separator, largest, with_byte, with_bytes, with_digit, with_minus};

use crate::input::Input;
use crate::wanted::Wanted;

// A token as far as it has been read. The magnitude of a number is at most 2^64 - 1: a larger one fits no field.
#[derive(Clone, Copy, PartialEq, Eq, Debug)]
pub enum Token {
    // Nothing of it has been read.
    Blank,
    // A `-` with no digit behind it yet.
    Minus,
    Number { is_negative: bool, magnitude: u64 },
    // Nothing that follows makes a number of it.
    Other,
}

fn is_separator(byte: u8) -> bool
    ensures { result ≡ is_separator byte }
{
    byte == b' ' || byte == b'\n'
}

fn is_digit(byte: u8) -> bool
    ensures { result ≡ is_digit byte }
{
    b'0' <= byte && byte <= b'9'
}

// Whether the magnitude with one more digit is at most 2^64 - 1.
fn has_room(magnitude: u64, digit: u64) -> bool
    ensures { result ≡ nat_le (magnitude * 10 + digit) largest }
{
    magnitude <= (u64::MAX - digit) / 10
}

#[tactic(auto, unfolding(crate::specs::Token::with_digit))]
fn with_digit(token: Token, digit: u64) -> Token
    ensures { result ≡ with_digit token digit }
{
    match token {
        Token::Blank => Token::Number {
            is_negative: false,
            magnitude: digit,
        },
        Token::Minus => Token::Number {
            is_negative: true,
            magnitude: digit,
        },
        Token::Number {
            is_negative,
            magnitude,
        } if has_room(magnitude, digit) => Token::Number {
            is_negative,
            magnitude: magnitude * 10 + digit,
        },
        _ => Token::Other,
    }
}

#[tactic(auto, unfolding(crate::specs::Token::with_minus))]
fn with_minus(token: Token) -> Token
    ensures { result ≡ with_minus token }
{
    match token {
        Token::Blank => Token::Minus,
        _ => Token::Other,
    }
}

#[tactic(auto, using(crate::proofs::Digits::digit_from), unfolding(crate::specs::Token::with_byte))]
fn with_byte(token: Token, byte: u8) -> Token
    ensures { result ≡ with_byte token byte }
{
    if is_digit(byte) {
        return with_digit(token, (byte - b'0') as u64);
    }
    if byte == b'-' {
        return with_minus(token);
    }
    Token::Other
}

// Whether the byte stands in no number.
fn is_odd(byte: u8) -> bool {
    !is_digit(byte) && byte != b'-'
}

// A whole text as one token; a separator within it is no part of a number.
pub fn token_of(text: &[u8]) -> Token
    ensures { result ≡ with_bytes blank text.now }
{
    let mut token = Token::Blank;
    for byte in text {
        token = with_byte(token, *byte);
    }
    token
}

// The next token, with the separator after it; a blank one at the end of the input. The turns are counted since nothing says that an input ends; no run
// uses them up.
pub fn read_token(input: &mut Input) -> Token {
    input.begin_number();
    let mut token = Token::Blank;
    for _ in 0..u64::MAX {
        let Some(byte) = input.next_byte() else {
            return token;
        };
        if !is_separator(byte) {
            input.note(byte, is_odd(byte));
            token = with_byte(token, byte);
        } else if token != Token::Blank {
            return token;
        }
    }
    token
}

// Nothing may follow.
pub fn read_end(input: &mut Input) {
    if read_token(input) != Token::Blank {
        input.spoil(Wanted::End);
    }
}
