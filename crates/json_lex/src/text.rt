// What is kept of a text: its first bytes after decoding, and how many it has.
ghost use Rattle.std.specs.Prelude.{◌≡◌, ◌∷◌, [], ◌+◌, ◌%◌, ◌≤◌, ◌<◌};
ghost use Rattle.json_rule.specs.Values.{is_high, is_low, utf8};
ghost use Rattle.json_machine.specs.Digest.{Keeps, blank_text, pair_of, held, settled as settled_of, keeping, with_low, with_unit, held_in_text, held_in_escape, held_in_hex, held_after};

use crate::byte::{escaped, hex_of};
use crate::mode::{ESCAPE, FOUR_HEX, ONE_HEX, TEXT};
pub use json_machine::Text;

// How many bytes of a text are kept: one more than the longest that any record holds.
pub const KEPT: usize = 97;

pub type Kept = [u8; KEPT];

// The length of a text that has half of a pair without the other: that is JSON, but no UTF-8, so no record holds it.
pub const LONE: usize = 98;

pub fn blank() -> Text
    ensures { result ≡ blank_text }
{
    Text {
        len: 0,
        unit: 0,
        high: 0,
    }
}

// The length with one more byte, which is kept where there is room.
pub fn keep(kept: &mut Kept, len: usize, byte: u8) -> usize
    ensures { Keeps kept.old len (byte ∷ []) result kept.new }
{
    if len < KEPT {
        kept[len] = byte;
        return len + 1;
    }
    len
}

// The last six bits of a character, or of what is left of it, as a byte behind the first.
fn six_bits(point: u32) -> u8
    ensures { result ≡ 128 + point % 64 }
{
    (128 + point % 64) as u8
}

// A character from 800 on in UTF-8, in three bytes or four.
fn keep_long(kept: &mut Kept, len: usize, point: u32) -> usize
    requires { (2048 ≤ point) × (point < 2097152) }
    ensures { Keeps kept.old len (utf8 point) result kept.new }
{
    if point < 0x10000 {
        let one = keep(kept, len, (224 + point / 4096) as u8);
        let two = keep(kept, one, six_bits(point / 64));
        return keep(kept, two, six_bits(point));
    }
    let one = keep(kept, len, (240 + point / 262144) as u8);
    let two = keep(kept, one, six_bits(point / 4096));
    let three = keep(kept, two, six_bits(point / 64));
    keep(kept, three, six_bits(point))
}

// A character in UTF-8.
fn keep_point(kept: &mut Kept, len: usize, point: u32) -> usize
    requires { point < 2097152 }
    ensures { Keeps kept.old len (utf8 point) result kept.new }
{
    if point < 0x80 {
        return keep(kept, len, point as u8);
    }
    if point < 0x800 {
        let one = keep(kept, len, (192 + point / 64) as u8);
        return keep(kept, one, six_bits(point));
    }
    keep_long(kept, len, point)
}

// What comes next is no low half: one that waits for it stood without the other.
#[tactic(auto, unfolding(json_machine::specs::Digest::settled))]
pub fn settled(text: Text) -> Text
    ensures { result ≡ settled_of text }
{
    if text.high == 0 {
        return text;
    }
    Text {
        len: LONE,
        high: 0,
        ..text
    }
}

// The character that both halves say.
fn paired(high: u32, low: u32) -> u32
    ensures { result ≡ pair_of high low }
{
    65536 + high % 1024 * 1024 + low % 1024
}

#[tactic(auto, unfolding(json_machine::specs::Digest::with_low))]
fn with_low(text: Text, kept: &mut Kept, low: u32) -> Text
    ensures { held result kept.new ≡ with_low low (held text kept.old) }
{
    if text.high == 0 {
        return Text { len: LONE, ..text };
    }
    Text {
        len: keep_point(kept, text.len, paired(text.high, low)),
        high: 0,
        ..text
    }
}

#[tactic(auto, unfolding(json_rule::specs::Values::is_high))]
fn is_high(unit: u32) -> bool
    ensures { result ≡ is_high unit }
{
    matches!(unit, 0xD800..=0xDBFF)
}

#[tactic(auto, unfolding(json_rule::specs::Values::is_low))]
fn is_low(unit: u32) -> bool
    ensures { result ≡ is_low unit }
{
    matches!(unit, 0xDC00..=0xDFFF)
}

// The text with the unit that four hexadecimal digits say: half of a pair, or a character.
#[tactic(auto, unfolding(json_machine::specs::Digest::with_unit))]
fn with_unit(text: Text, kept: &mut Kept, unit: u32) -> Text
    requires { unit < 65536 }
    ensures { held result kept.new ≡ with_unit unit (held text kept.old) }
{
    if is_low(unit) {
        return with_low(text, kept, unit);
    }
    let before = settled(text);
    if is_high(unit) {
        return Text {
            high: unit,
            ..before
        };
    }
    Text {
        len: keep_point(kept, before.len, unit),
        ..before
    }
}

#[tactic(auto, unfolding(json_machine::specs::Digest::keeping))]
fn with_kept(text: Text, kept: &mut Kept, byte: u8) -> Text
    ensures { held result kept.new ≡ keeping (byte ∷ []) (held text kept.old) }
{
    Text {
        len: keep(kept, text.len, byte),
        ..text
    }
}

// A byte of a text that stands for itself; the quote ends it, and a backslash waits for what follows.
#[tactic(auto, unfolding(json_machine::specs::Digest::held_in_text))]
fn in_text(text: Text, kept: &mut Kept, byte: u8) -> Text
    ensures { held result kept.new ≡ held_in_text byte (held text kept.old) }
{
    match byte {
        b'"' => settled(text),
        b'\\' => text,
        _ => with_kept(settled(text), kept, byte),
    }
}

#[tactic(auto, unfolding(json_machine::specs::Digest::held_in_escape))]
fn in_escape(text: Text, kept: &mut Kept, byte: u8) -> Text
    ensures { held result kept.new ≡ held_in_escape byte (held text kept.old) }
{
    if byte == b'u' {
        return text;
    }
    with_kept(settled(text), kept, escaped(byte))
}

// One more hexadecimal digit: the last says the unit.
#[tactic(auto, unfolding(json_machine::specs::Digest::held_in_hex))]
fn in_hex(text: Text, kept: &mut Kept, mode: u32, byte: u8) -> Text
    ensures { held result kept.new ≡ held_in_hex mode byte (held text kept.old) }
{
    let unit = text.unit % 4096 * 16 + hex_of(byte) % 16;
    let said = Text { unit, ..text };
    if mode == ONE_HEX {
        return with_unit(said, kept, unit);
    }
    said
}

// The text with one more byte that continues it, by the mode before that byte.
#[tactic(auto, unfolding(json_machine::specs::Digest::held_after))]
pub fn with_byte(text: Text, kept: &mut Kept, mode: u32, byte: u8) -> Text
    ensures { held result kept.new ≡ held_after mode byte (held text kept.old) }
{
    if mode == TEXT {
        return in_text(text, kept, byte);
    }
    if mode == ESCAPE {
        return in_escape(text, kept, byte);
    }
    if mode <= FOUR_HEX {
        return in_hex(text, kept, mode, byte);
    }
    with_kept(text, kept, byte)
}
