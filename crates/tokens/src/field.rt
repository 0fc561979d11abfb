// Numbers of the fields, each of its width. A token that is no number of the field spoils the input, and is read as 0.
ghost use Rattle.std.specs.Prelude.{◌≡◌, ◌^◌, ◌<◌, ◌≤◌, IfSome};
ghost use Rattle.std.specs.Int.Signed.{mag};
ghost use Rattle.tokens.specs.Widths.{number_of, signed_below, signed_of, unsigned_of};

use crate::input::Input;
use crate::token::{Token, read_token};
use crate::wanted::Wanted;

// The number from 0 to `most` that a token is; `-0` is 0.
#[tactic(auto, unfolding(crate::specs::Widths::unsigned_of))]
pub fn unsigned_of(token: Token, most: u64) -> Option<u64>
    ensures number { result ≡ unsigned_of token most }
    ensures within { IfSome result (λ n. n ≤ most) }
{
    match token {
        Token::Number {
            is_negative: false,
            magnitude,
        } if magnitude <= most => Some(magnitude),
        Token::Number {
            is_negative: true,
            magnitude: 0,
        } => Some(0),
        _ => None,
    }
}

pub fn read_up_to(input: &mut Input, most: u64) -> u64
    ensures { result ≤ most }
{
    if let Some(number) = unsigned_of(read_token(input), most) {
        return number;
    }
    input.spoil(Wanted::UpTo(most));
    0
}

pub fn read_u64(input: &mut Input) -> u64 {
    read_up_to(input, u64::MAX)
}

pub fn read_count(input: &mut Input) -> usize {
    read_up_to(input, u64::MAX) as usize
}

pub fn read_u8(input: &mut Input) -> u8 {
    read_up_to(input, 255) as u8
}

pub fn read_flag(input: &mut Input) -> bool {
    read_up_to(input, 1) == 1
}

// How far the number lies from 0, or from -1 if it is below 0: a signed field holds it exactly if that is less than half of what the
// field can tell apart.
fn span(is_negative: bool, magnitude: u64) -> u64
    ensures { result ≡ mag (number_of is_negative magnitude) }
{
    if is_negative && magnitude > 0 {
        return magnitude - 1;
    }
    magnitude
}

fn to_i64(is_negative: bool, magnitude: u64) -> i64
    requires { mag (number_of is_negative magnitude) < 2 ^ 63 }
    ensures { result ≡ number_of is_negative magnitude }
{
    if is_negative && magnitude > 0 {
        return -1 - (magnitude - 1) as i64;
    }
    magnitude as i64
}

// The number from -half to half - 1 that a token is.
#[tactic(auto, unfolding(crate::specs::Widths::signed_below))]
fn signed_below(token: Token, half: u64) -> Option<i64>
    requires { half ≤ 2 ^ 63 }
    ensures number { result ≡ signed_below token half }
    ensures within { IfSome result (λ z. mag z < half) }
{
    match token {
        Token::Number {
            is_negative,
            magnitude,
        } if span(is_negative, magnitude) < half => Some(to_i64(is_negative, magnitude)),
        _ => None,
    }
}

fn read_signed(input: &mut Input, half: u64) -> i64
    requires { (0 < half) × (half ≤ 2 ^ 63) }
    ensures { mag result < half }
{
    if let Some(number) = signed_below(read_token(input), half) {
        return number;
    }
    input.spoil(Wanted::Signed(half));
    0
}

// The number of an i64 field that a token is.
pub fn signed_of(token: Token) -> Option<i64>
    ensures { result ≡ signed_of token }
{
    signed_below(token, 1 << 63)
}

pub fn read_i64(input: &mut Input) -> i64 {
    read_signed(input, 1 << 63)
}

pub fn read_i32(input: &mut Input) -> i32 {
    read_signed(input, 1 << 31) as i32
}
