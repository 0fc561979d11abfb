// Texts that are UTF-8, a byte at a time: RFC 3629, section 4.
ghost use Rattle.std.specs.Prelude.{◌≡◌};
ghost use Rattle.rules.specs.Layout.{counted, read_name, read_text};
ghost use Rattle.file_rule.specs.Export.{is_utf8};
ghost use Rattle.file_shown.specs.Characters.{leading, after_byte, fits_byte};

use records::text::{Name, Text};

// How many bytes of a character are left, and between which bounds the next lies. None are left between characters.
#[derive(Clone, Copy)]
pub struct Character {
    pub left: u8,
    pub least: u8,
    pub most: u8,
}

impl Character {
    fn new(left: u8, least: u8, most: u8) -> Character
        ensures { result ≡ record { left = left; least = least; most = most } }
    {
        Character { left, least, most }
    }
}

// What follows the first byte of a character of several.
#[tactic(auto, unfolding(crate::specs::Characters::leading, json_rule::specs::Lexemes::lead_of))]
fn lead(byte: u8) -> Character
    ensures { result ≡ leading byte }
{
    match byte {
        194..=223 => Character::new(1, 128, 191),
        224 => Character::new(2, 160, 191),
        237 => Character::new(2, 128, 159),
        225..=239 => Character::new(2, 128, 191),
        240 => Character::new(3, 144, 191),
        241..=243 => Character::new(3, 128, 191),
        244 => Character::new(3, 128, 143),
        _ => Character::new(1, 1, 0),
    }
}

#[tactic(auto, unfolding(crate::specs::Characters::fits_byte, json_rule::specs::Lexemes::is_lead))]
fn fits(c: Character, byte: u8) -> bool
    ensures { result ≡ fits_byte c byte }
{
    if c.left == 0 {
        return (byte <= 127) | ((194 <= byte) & (byte <= 244));
    }
    (c.least <= byte) & (byte <= c.most)
}

#[tactic(auto, unfolding(crate::specs::Characters::after_byte))]
fn after(c: Character, byte: u8) -> Character
    ensures { result ≡ after_byte c byte }
{
    if c.left == 0 {
        if byte <= 127 {
            return Character::new(0, 0, 0);
        }
        return lead(byte);
    }
    Character::new(c.left - 1, 128, 191)
}

// So many bytes; one that is counted and not there is 0.
fn is_utf8(bytes: &[u8], count: usize) -> bool
    ensures { result ≡ is_utf8 (counted 0 bytes.now count) }
{
    let mut c = Character::new(0, 0, 0);
    for i in 0..count {
        let byte = bytes.get(i).copied().unwrap_or(0);
        if !fits(c, byte) {
            return false;
        }
        c = after(c, byte);
    }
    c.left == 0
}

pub fn name_is_utf8(name: Name) -> bool
    ensures { result ≡ is_utf8 (read_name name) }
{
    is_utf8(&name.bytes, name.len)
}

pub fn text_is_utf8(text: Text) -> bool
    ensures { result ≡ is_utf8 (read_text text) }
{
    is_utf8(&text.bytes, text.len)
}
