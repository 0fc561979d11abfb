// The modes of a reader, and the mode after a byte: a function for each mode, or for each few that differ in a number.
ghost use Rattle.std.specs.Prelude.{◌≡◌, ltb, cond};
ghost use Rattle.json_rule.specs.Lexemes.{within, is_digit};
ghost use Rattle.json_machine.specs.Modes.{text_mode, digits_mode, whole, begun as begunOf, in_wide, in_text, in_escape, in_hex, in_character, in_minus, at_exponent, in_zero, in_digits, at_digit, in_fraction, in_exponent, in_power, in_word, after_text, after_number, after_word, after_mode, may_end, is_integer};
ghost use Rattle.json_machine.specs.Digest.{is_before_point};

use crate::byte::{NO_ESCAPE, NO_HEX, escaped, hex_of, is_digit};

// Kept: modes are numbers, and what a byte does to a lexeme too, as Modes, Digest and Lexing (crate `json_machine`) say them, and `mode-step` and `lexed` prove of them.
// Between lexemes.
pub const BETWEEN: u32 = 0;

// In a text, and after a backslash there.
pub const TEXT: u32 = 1;

pub const ESCAPE: u32 = 2;

// So many hexadecimal digits of an escape are left.
pub const ONE_HEX: u32 = 3;

pub const TWO_HEX: u32 = 4;

pub const THREE_HEX: u32 = 5;

pub const FOUR_HEX: u32 = 6;

// So many bytes of a character are left, each 80 to BF; or that many after these first bytes, which narrow the second.
pub const ONE_MORE: u32 = 7;

pub const TWO_MORE: u32 = 8;

pub const THREE_MORE: u32 = 9;

pub const AFTER_E0: u32 = 10;

pub const AFTER_ED: u32 = 11;

pub const AFTER_F0: u32 = 12;

pub const AFTER_F4: u32 = 13;

// In a number: after its minus, its leading zero, a digit before the point, the point, a digit behind it, the `e`, the sign behind it, a digit of the exponent.
pub const MINUS: u32 = 14;

pub const ZERO: u32 = 15;

pub const DIGITS: u32 = 16;

pub const POINT: u32 = 17;

pub const FRACTION: u32 = 18;

pub const EXPONENT: u32 = 19;

pub const SIGN: u32 = 20;

pub const POWER: u32 = 21;

// In a word: which letters are left.
pub const RUE: u32 = 22;

pub const UE: u32 = 23;

pub const E: u32 = 24;

pub const ALSE: u32 = 25;

pub const LSE: u32 = 26;

pub const SE: u32 = 27;

pub const ULL: u32 = 28;

pub const LL: u32 = 29;

pub const L: u32 = 30;

// After a broken lexeme nothing is read.
pub const STOPPED: u32 = 31;

// No modes, but what a byte does to the lexeme: it ends it, it can not continue it, or it shows that the lexeme, a number, ended before it.
pub const WHOLE: u32 = 32;

pub const BROKEN: u32 = 33;

pub const ENDED: u32 = 34;

// Beside the bytes that `begun` names: a digit begins a number.
fn begun_beside(byte: u8) -> u32
    ensures { result ≡ cond (is_digit byte) digits_mode whole }
{
    if is_digit(byte) {
        return DIGITS;
    }
    WHOLE
}

// The first byte of a lexeme, or a space. A byte that begins no value is a lexeme by itself.
#[tactic(auto, unfolding(json_machine::specs::Modes::begun, json_rule::specs::Lexemes::is_space, json_rule::specs::Lexemes::is_digit))]
pub fn begun(byte: u8) -> u32
    ensures { result ≡ begunOf byte }
{
    match byte {
        b' ' | b'\t' | b'\n' | b'\r' => BETWEEN,
        b'"' => TEXT,
        b'-' => MINUS,
        b'0' => ZERO,
        b't' => RUE,
        b'f' => ALSE,
        b'n' => ULL,
        _ => begun_beside(byte),
    }
}

// The first byte of a character of two to four.
#[tactic(auto, unfolding(json_machine::specs::Modes::in_wide))]
fn in_wide(byte: u8) -> u32
    ensures { result ≡ in_wide byte }
{
    match byte {
        0xC2..=0xDF => ONE_MORE,
        0xE0 => AFTER_E0,
        0xED => AFTER_ED,
        0xE1..=0xEF => TWO_MORE,
        0xF0 => AFTER_F0,
        0xF1..=0xF3 => THREE_MORE,
        0xF4 => AFTER_F4,
        _ => BROKEN,
    }
}

// A byte that is neither a quotation mark nor a backslash.
fn in_character_begun(byte: u8) -> u32
    ensures { result ≡ cond (within 32 127 byte) text_mode (in_wide byte) }
{
    match byte {
        32..=127 => TEXT,
        _ => in_wide(byte),
    }
}

#[tactic(auto, unfolding(json_machine::specs::Modes::in_text))]
fn in_text(byte: u8) -> u32
    ensures { result ≡ in_text byte }
{
    match byte {
        b'"' => WHOLE,
        b'\\' => ESCAPE,
        _ => in_character_begun(byte),
    }
}

fn in_escape(byte: u8) -> u32
    ensures { result ≡ in_escape byte }
{
    if byte == b'u' {
        return FOUR_HEX;
    }
    if escaped(byte) == NO_ESCAPE {
        return BROKEN;
    }
    TEXT
}

fn in_hex(next: u32, byte: u8) -> u32
    ensures { result ≡ in_hex next byte }
{
    if hex_of(byte) == NO_HEX {
        return BROKEN;
    }
    next
}

// A byte of a character, from the least to the most that may stand there.
fn in_character(least: u8, most: u8, next: u32, byte: u8) -> u32
    ensures { result ≡ in_character least most next byte }
{
    if least <= byte && byte <= most {
        return next;
    }
    BROKEN
}

#[tactic(auto, unfolding(json_machine::specs::Modes::in_minus, json_rule::specs::Lexemes::is_digit))]
fn in_minus(byte: u8) -> u32
    ensures { result ≡ in_minus byte }
{
    if byte == b'0' {
        return ZERO;
    }
    at_digit(DIGITS, byte)
}

// An `e`, or the number has ended.
fn at_exponent(byte: u8) -> u32
    ensures { result ≡ at_exponent byte }
{
    match byte {
        b'e' | b'E' => EXPONENT,
        _ => ENDED,
    }
}

// Behind the leading zero or a digit: a point or an `e`, or the number has ended.
#[tactic(auto, unfolding(json_machine::specs::Modes::in_zero))]
fn in_zero(byte: u8) -> u32
    ensures { result ≡ in_zero byte }
{
    if byte == b'.' {
        return POINT;
    }
    at_exponent(byte)
}

#[tactic(auto, unfolding(json_machine::specs::Modes::in_digits))]
fn in_digits(byte: u8) -> u32
    ensures { result ≡ in_digits byte }
{
    if is_digit(byte) {
        return DIGITS;
    }
    in_zero(byte)
}

// Where a digit must stand.
fn at_digit(next: u32, byte: u8) -> u32
    ensures { result ≡ at_digit next byte }
{
    if is_digit(byte) {
        return next;
    }
    BROKEN
}

#[tactic(auto, unfolding(json_machine::specs::Modes::in_fraction))]
fn in_fraction(byte: u8) -> u32
    ensures { result ≡ in_fraction byte }
{
    if is_digit(byte) {
        return FRACTION;
    }
    at_exponent(byte)
}

#[tactic(auto, unfolding(json_machine::specs::Modes::in_exponent))]
fn in_exponent(byte: u8) -> u32
    ensures { result ≡ in_exponent byte }
{
    match byte {
        b'+' | b'-' => SIGN,
        _ => at_digit(POWER, byte),
    }
}

fn in_power(byte: u8) -> u32
    ensures { result ≡ in_power byte }
{
    if is_digit(byte) {
        return POWER;
    }
    ENDED
}

fn in_word(letter: u8, next: u32, byte: u8) -> u32
    ensures { result ≡ in_word letter next byte }
{
    if byte == letter {
        return next;
    }
    BROKEN
}

// In a text.
#[tactic(auto, unfolding(json_machine::specs::Modes::after_text))]
fn after_text(mode: u32, byte: u8) -> u32
    ensures { result ≡ after_text mode byte }
{
    match mode {
        TEXT => in_text(byte),
        ESCAPE => in_escape(byte),
        ONE_HEX => in_hex(TEXT, byte),
        TWO_HEX => in_hex(ONE_HEX, byte),
        THREE_HEX => in_hex(TWO_HEX, byte),
        FOUR_HEX => in_hex(THREE_HEX, byte),
        ONE_MORE => in_character(0x80, 0xBF, TEXT, byte),
        TWO_MORE => in_character(0x80, 0xBF, ONE_MORE, byte),
        THREE_MORE => in_character(0x80, 0xBF, TWO_MORE, byte),
        AFTER_E0 => in_character(0xA0, 0xBF, ONE_MORE, byte),
        AFTER_ED => in_character(0x80, 0x9F, ONE_MORE, byte),
        AFTER_F0 => in_character(0x90, 0xBF, TWO_MORE, byte),
        _ => in_character(0x80, 0x8F, TWO_MORE, byte),
    }
}

// In a number.
#[tactic(auto, unfolding(json_machine::specs::Modes::after_number))]
fn after_number(mode: u32, byte: u8) -> u32
    ensures { result ≡ after_number mode byte }
{
    match mode {
        MINUS => in_minus(byte),
        ZERO => in_zero(byte),
        DIGITS => in_digits(byte),
        POINT => at_digit(FRACTION, byte),
        FRACTION => in_fraction(byte),
        EXPONENT => in_exponent(byte),
        SIGN => at_digit(POWER, byte),
        _ => in_power(byte),
    }
}

// In a word, or behind a broken lexeme.
#[tactic(auto, unfolding(json_machine::specs::Modes::after_word))]
fn after_word(mode: u32, byte: u8) -> u32
    ensures { result ≡ after_word mode byte }
{
    match mode {
        RUE => in_word(b'r', UE, byte),
        UE => in_word(b'u', E, byte),
        E => in_word(b'e', WHOLE, byte),
        ALSE => in_word(b'a', LSE, byte),
        LSE => in_word(b'l', SE, byte),
        SE => in_word(b's', E, byte),
        ULL => in_word(b'u', LL, byte),
        LL => in_word(b'l', L, byte),
        L => in_word(b'l', WHOLE, byte),
        _ => STOPPED,
    }
}

// The mode after a byte, or what the byte does to the lexeme.
#[tactic(auto, unfolding(json_machine::specs::Modes::after_mode))]
pub fn after(mode: u32, byte: u8) -> u32
    ensures { result ≡ after_mode mode byte }
{
    if mode == BETWEEN {
        return begun(byte);
    }
    if mode <= AFTER_F4 {
        return after_text(mode, byte);
    }
    if mode <= POWER {
        return after_number(mode, byte);
    }
    after_word(mode, byte)
}

// Whether a number may end in this mode.
#[tactic(auto, unfolding(json_machine::specs::Modes::may_end))]
pub fn may_end(mode: u32) -> bool
    ensures { result ≡ may_end mode }
{
    matches!(mode, ZERO | DIGITS | FRACTION | POWER)
}

// Whether a number that ends in this mode has neither fraction nor exponent.
#[tactic(auto, unfolding(json_machine::specs::Modes::is_integer))]
pub fn is_integer(mode: u32) -> bool
    ensures { result ≡ is_integer mode }
{
    matches!(mode, ZERO | DIGITS)
}

// Whether the next digit of a number stands before its point and its exponent.
#[tactic(auto, unfolding(json_machine::specs::Digest::is_before_point))]
pub fn is_before_point(mode: u32) -> bool
    ensures { result ≡ is_before_point mode }
{
    matches!(mode, MINUS | DIGITS)
}

// Whether the lexeme goes on, or none has begun.
pub fn is_mode(next: u32) -> bool
    ensures { result ≡ ltb next whole }
{
    next < WHOLE
}
