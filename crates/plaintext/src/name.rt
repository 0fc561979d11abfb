// Names, locations and file names in quotation marks, and uuids. No byte is lost: what is not printable ASCII, a quotation mark and a
// backslash are written as `\x` with two hexadecimal digits.
ghost use Rattle.std.specs.Prelude.{◌<◌};

use crate::table::say_left_out;
use crate::text::say;
use cards::card::Text;
use slot_bounds::{lent, with_slots};
use tokens::output::Output;

fn is_plain(byte: u8) -> bool {
    b' ' <= byte && byte <= b'~' && byte != b'"' && byte != b'\\'
}

fn hexadecimal(digit: u8) -> u8
    requires { digit < 16 }
{
    if digit < 10 {
        return b'0' + digit;
    }
    b'a' + (digit - 10)
}

// What a byte is written as: the first so many of the four.
#[derive(Clone, Copy)]
struct Spelled {
    bytes: [u8; 4],
    len: usize,
}

fn in_name(byte: u8) -> Spelled {
    if is_plain(byte) {
        return Spelled {
            bytes: [byte, 0, 0, 0],
            len: 1,
        };
    }
    let high = hexadecimal(byte / 16);
    let low = hexadecimal(byte % 16);
    Spelled {
        bytes: [b'\\', b'x', high, low],
        len: 4,
    }
}

// A `-` stands before the bytes 4, 6, 8 and 10.
fn in_uuid(byte: u8, at: usize) -> Spelled {
    let high = hexadecimal(byte / 16);
    let low = hexadecimal(byte % 16);
    if at == 4 || at == 6 || at == 8 || at == 10 {
        return Spelled {
            bytes: [b'-', high, low, 0],
            len: 3,
        };
    }
    Spelled {
        bytes: [high, low, 0, 0],
        len: 2,
    }
}

fn say_spelled(output: &mut Output, spelled: Spelled) {
    let bytes = spelled.bytes;
    let slots: &[u8] = &bytes;
    let n = lent(slots, spelled.len);
    say(output, &slots[..n]);
}

// The counted bytes that have a slot.
pub fn say_escaped(output: &mut Output, slots: &[u8], len: usize) {
    let n = with_slots(len, slots.len());
    for &byte in &slots[..n] {
        say_spelled(output, in_name(byte));
    }
}

pub fn say_name(output: &mut Output, slots: &[u8], len: usize) {
    say(output, b"\"");
    say_escaped(output, slots, len);
    say(output, b"\"");
    say_left_out(output, len, slots.len());
}

pub fn say_text(output: &mut Output, text: Text) {
    let bytes = text.bytes;
    let slots: &[u8] = &bytes;
    let n = lent(slots, text.slots);
    say_name(output, &slots[..n], text.len);
}

pub fn say_uuid(output: &mut Output, uuid: Text) {
    for (i, &byte) in uuid.bytes[..16].iter().enumerate() {
        say_spelled(output, in_uuid(byte, i));
    }
}
