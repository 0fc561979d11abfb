// A lexeme as far as it has been read.
ghost use Rattle.std.specs.Prelude.{◌≡◌};
ghost use Rattle.json_machine.specs.Lexing.{between_lexemes, beginning as beginningOf, reading, with_next, in_mode, head_of, is_whole_number};

use crate::mode::{AFTER_F4, BETWEEN, is_before_point, is_integer};
use crate::text::Kept;
use crate::{number, text};
pub use json_machine::Lexer;

pub fn between() -> Lexer
    ensures { result ≡ between_lexemes }
{
    Lexer {
        mode: BETWEEN,
        head: 0,
        first: 0,
        text: text::blank(),
        number: number::blank(),
    }
}

// The first byte of the lexeme.
pub fn head_of(l: Lexer) -> u8
    ensures { result ≡ head_of l }
{
    (l.head % 256) as u8
}

// Whether the lexeme, a number that ends in this mode, is an integer below 2^64.
#[tactic(auto, unfolding(json_machine::specs::Lexing::is_whole_number))]
pub fn is_whole_number(l: Lexer) -> bool
    ensures { result ≡ is_whole_number l }
{
    if l.number.over > 0 {
        return false;
    }
    is_integer(l.mode)
}

// The lexeme, if it is one, that begins with the byte at a place.
fn beginning(byte: u8, at: usize) -> Lexer
    ensures { result ≡ beginningOf byte at }
{
    Lexer {
        mode: BETWEEN,
        head: u32::from(byte),
        first: at,
        text: text::blank(),
        number: number::with_byte(number::blank(), byte),
    }
}

// What is kept with one more byte that continues the lexeme, or begins one. The mode is still the one before that byte.
#[tactic(auto, unfolding(json_machine::specs::Lexing::with_next))]
pub fn with_next(l: Lexer, kept: &mut Kept, byte: u8, at: usize) -> Lexer
    ensures { reading result kept.new ≡ with_next byte at (reading l kept.old) }
{
    if l.mode == BETWEEN {
        return beginning(byte, at);
    }
    if l.mode <= AFTER_F4 {
        return Lexer {
            text: text::with_byte(l.text, kept, l.mode, byte),
            ..l
        };
    }
    if is_before_point(l.mode) {
        return Lexer {
            number: number::with_byte(l.number, byte),
            ..l
        };
    }
    l
}

pub fn in_mode(l: Lexer, mode: u32) -> Lexer
    ensures { result ≡ in_mode mode l }
{
    Lexer { mode, ..l }
}
