// A uuid: 8, 4, 4, 4 and 12 hexadecimal digits of either case, with hyphens between.
ghost use Rattle.std.specs.Prelude.{◌≡◌, cond, ◌<◌, ltb};
ghost use Rattle.json_rule.specs.Defects.{is_uuid};
ghost use Rattle.json_members.specs.Kept.{front};
ghost use Rattle.json_members.specs.Uuids.{is_right_at, place_of, uuid_byte};

use json_lex::byte::{NO_HEX, hex_of};
use json_lex::text::Kept;

pub const LENGTH: usize = 36;

// Whether a byte may stand at a place: a hyphen, or a digit.
fn is_right_at(i: usize, byte: u8) -> bool
    ensures { result ≡ is_right_at i byte }
{
    match i {
        8 | 13 | 18 | 23 => byte == b'-',
        _ => hex_of(byte) != NO_HEX,
    }
}

pub fn is_uuid(kept: &Kept, len: usize) -> bool
    ensures { result ≡ is_uuid (front len kept.now) }
{
    if len != LENGTH {
        return false;
    }
    for (i, byte) in kept[..LENGTH].iter().enumerate() {
        if !is_right_at(i, *byte) {
            return false;
        }
    }
    true
}

// Where the two digits of a byte of a uuid stand: behind the hyphens that come before them.
#[tactic(auto, unfolding(crate::specs::Uuids::place_of))]
fn place_of(byte: usize) -> usize
    requires { byte < 16 }
    ensures { result ≡ place_of byte }
{
    if byte < 4 {
        return byte * 2;
    }
    if byte < 6 {
        return byte * 2 + 1;
    }
    if byte < 8 {
        return byte * 2 + 2;
    }
    if byte < 10 {
        return byte * 2 + 3;
    }
    byte * 2 + 4
}

// One of its sixteen bytes, by its two digits; 0 past them.
pub fn byte_of(kept: &Kept, byte: usize) -> u8
    ensures { result ≡ cond (ltb byte 16) (uuid_byte kept.now byte) 0 }
{
    if byte >= 16 {
        return 0;
    }
    let at = place_of(byte);
    let high = hex_of(kept[at]) % 16;
    let low = hex_of(kept[at + 1]) % 16;
    (high * 16 + low) as u8
}
