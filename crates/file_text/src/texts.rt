// Texts in quotes, with what JSON does not take as it is escaped, and uuids.
ghost use Rattle.std.specs.Prelude.{◌≡◌, ◌++◌, ◌<◌};
ghost use Rattle.rules.specs.Layout.{counted, read_name, read_text};
ghost use Rattle.file_rule.specs.Written.{hex_digit, escaped_byte, quoted};
ghost use Rattle.file_rule.specs.Files.{hex_byte, uuid_text};
ghost use Rattle.file_text.specs.Puts.{Puts};

use crate::bytes::{put, put_byte, put_if};
use records::text::{Name, Text};

fn hex_digit(n: u8) -> u8
    requires { n < 16 }
    ensures { result ≡ hex_digit n }
{
    if n < 10 { b'0' + n } else { b'a' - 10 + n }
}

#[tactic(auto, unfolding(file_rule::specs::Written::escaped_byte))]
fn put_escaped(buffer: &mut [u8], at: usize, byte: u8) -> usize
    ensures { Puts buffer.old at (escaped_byte byte) result buffer.new }
{
    match byte {
        b'"' => put(buffer, at, b"\\\""),
        b'\\' => put(buffer, at, b"\\\\"),
        8 => put(buffer, at, b"\\b"),
        12 => put(buffer, at, b"\\f"),
        b'\n' => put(buffer, at, b"\\n"),
        b'\r' => put(buffer, at, b"\\r"),
        b'\t' => put(buffer, at, b"\\t"),
        0..=31 => {
            let six = [
                b'\\',
                b'u',
                b'0',
                b'0',
                hex_digit(byte / 16),
                hex_digit(byte % 16),
            ];
            put(buffer, at, &six)
        }
        _ => put_byte(buffer, at, byte),
    }
}

// So many bytes; one that is counted and not there is 0.
pub fn put_quoted(buffer: &mut [u8], at: usize, bytes: &[u8], count: usize) -> usize
    ensures { Puts buffer.old at (quoted (counted 0 bytes.now count)) result buffer.new }
{
    let mut to = put_byte(buffer, at, b'"');
    for i in 0..count {
        let byte = bytes.get(i).copied().unwrap_or(0);
        to = put_escaped(buffer, to, byte);
    }
    put_byte(buffer, to, b'"')
}

pub fn put_name(buffer: &mut [u8], at: usize, before: &[u8], name: Name) -> usize
    ensures { Puts buffer.old at (before.now ++ quoted (read_name name)) result buffer.new }
{
    let at = put(buffer, at, before);
    put_quoted(buffer, at, &name.bytes, name.len)
}

pub fn put_text(buffer: &mut [u8], at: usize, before: &[u8], text: Text) -> usize
    ensures { Puts buffer.old at (before.now ++ quoted (read_text text)) result buffer.new }
{
    let at = put(buffer, at, before);
    put_quoted(buffer, at, &text.bytes, text.len)
}

fn put_hex(buffer: &mut [u8], at: usize, byte: u8) -> usize
    ensures { Puts buffer.old at (hex_byte byte) result buffer.new }
{
    put(buffer, at, &[hex_digit(byte / 16), hex_digit(byte % 16)])
}

// 8-4-4-4-12 hexadecimal digits, of sixteen bytes.
pub fn put_uuid(buffer: &mut [u8], at: usize, before: &[u8], uuid: &[u8]) -> usize
    ensures { Puts buffer.old at (before.now ++ uuid_text uuid.now) result buffer.new }
{
    let at = put(buffer, at, before);
    let mut to = put_byte(buffer, at, b'"');
    for (i, byte) in uuid.iter().enumerate() {
        to = put_if(buffer, to, matches!(i, 4 | 6 | 8 | 10), b"-");
        to = put_hex(buffer, to, *byte);
    }
    put_byte(buffer, to, b'"')
}
