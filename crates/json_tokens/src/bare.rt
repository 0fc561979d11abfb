// A number or a literal name, behind its first byte.
ghost use Rattle.std.specs.Prelude.{◌≡◌, ◌&&◌, eqb};
ghost use Rattle.json_machine.specs.Modes.{is_integer};
ghost use Rattle.json_machine.specs.Digest.{number_after};
ghost use Rattle.json_tokens.specs.Outcomes.{at_end, outcome_of, bare_token, bare_from};

use crate::space::bytes_from;
use crate::token::{BROKEN, Token, WHOLE};
use json_lex::mode::{after, is_before_point, is_integer, may_end};
use json_lex::number::Number;
use json_lex::{mode, number};

// The number with one more byte that continues it, by the mode before that byte.
fn number_after(mode: u32, byte: u8, n: Number) -> Number
    ensures { result ≡ number_after mode byte n }
{
    if is_before_point(mode) {
        return number::with_byte(n, byte);
    }
    n
}

// Whether a number that ends in this mode is an integer below 2^64.
fn is_whole_number(mode: u32, n: Number) -> bool
    ensures { result ≡ is_integer mode && eqb n.over 0 }
{
    is_integer(mode) && n.over == 0
}

fn bare_token(state: usize, head: u8, first: usize, at: usize, mode: u32, n: Number) -> Token
    ensures { result ≡ bare_token head first (outcome_of state at mode n) }
{
    Token {
        state,
        head,
        first,
        after: at,
        stop: at,
        len: 0,
        integer: is_whole_number(mode, n),
        magnitude: n.magnitude,
    }
}

// Where the text ends a number is whole that may end there, and any other lexeme is broken.
fn at_end(mode: u32) -> usize
    ensures { result ≡ at_end mode }
{
    if may_end(mode) {
        return WHOLE;
    }
    BROKEN
}

// The lexeme that begins at `first` with the byte `head`, which led to a mode; the other bytes from a place on.
pub fn read_bare(bytes: &[u8], head: u8, first: usize, from: usize, begun: u32) -> Token
    ensures { result ≡ bare_token head first (bare_from bytes.now from begun head) }
{
    let mut mode = begun;
    let mut number = number::with_byte(number::blank(), head);
    let rest = bytes_from(bytes, from);
    for (i, byte) in rest.iter().enumerate() {
        let next = after(mode, *byte);
        if next == mode::BROKEN {
            return bare_token(BROKEN, head, first, from + i, mode, number);
        }
        if next == mode::ENDED {
            return bare_token(WHOLE, head, first, from + i, mode, number);
        }
        number = number_after(mode, *byte, number);
        mode = next;
        if next == mode::WHOLE {
            return bare_token(WHOLE, head, first, from + i + 1, mode, number);
        }
    }
    bare_token(at_end(mode), head, first, from + rest.len(), mode, number)
}
