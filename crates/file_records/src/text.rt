// Texts, which are read in the file again at their places.
ghost use Rattle.std.specs.Prelude.{◌≡◌, cond, ◌<◌, ◌≤◌, length};
ghost use Rattle.rules.specs.Words.{same_bytes};
ghost use Rattle.rules.specs.Layout.{laid_name, laid_text};
ghost use Rattle.json_members.specs.Kept.{front};
ghost use Rattle.json_members.specs.Transforms.{transform_in};
ghost use Rattle.json_store.specs.Puts.{uuid_bytes};
ghost use Rattle.json_tokens.specs.Tokens.{lexemes_at};
ghost use Rattle.file_records.specs.Decoded.{said_by, up_to, text_at, uuid_at};

use crate::slots::fill;
use crate::value::{Cells, is_there, place_of};
use json_lex::text::{KEPT, Kept};
use json_members::bucket::{Transform, transform_of};
use json_members::uuid::{byte_of, is_uuid};
use json_members::word::is_word;
use json_tokens::token::{WHOLE, next};
use records::capacities::{NAME, TEXT};
use records::text::{Name, Text};

// The text at a place of the file, and its length: 0 where no text stands there, or one that is longer than any record holds.
fn said(bytes: &[u8], place: usize, kept: &mut Kept) -> usize
    ensures { front result kept.new ≡ up_to 96 (said_by (lexemes_at bytes.now place)) }
{
    let token = next(bytes, place, kept);
    if token.state != WHOLE {
        return 0;
    }
    if token.head != b'"' {
        return 0;
    }
    if token.len > TEXT {
        return 0;
    }
    token.len
}

// That of a value.
fn read(bytes: &[u8], cells: &Cells, at: usize, kept: &mut Kept) -> usize
    requires { at < 9047 }
    ensures { front result kept.new ≡ text_at bytes.now cells.now 96 at }
{
    if is_there(cells, at) {
        return said(bytes, place_of(cells, at), kept);
    }
    0
}

fn text_of(kept: &Kept, len: usize) -> Text
    requires { len ≤ 96 }
    ensures { result ≡ laid_text (front len kept.now) }
{
    let mut bytes = [0u8; TEXT];
    bytes[..len].copy_from_slice(&kept[..len]);
    Text { bytes, len }
}

fn name_of(kept: &Kept, len: usize) -> Name
    requires { len ≤ 32 }
    ensures { result ≡ laid_name (front len kept.now) }
{
    let mut bytes = [0u8; NAME];
    bytes[..len].copy_from_slice(&kept[..len]);
    Name { bytes, len }
}

// A location, the name of a metadata file, or the path of a statistics file.
pub fn text_at(bytes: &[u8], cells: &Cells, at: usize) -> Text
    requires { at < 9047 }
    ensures { result ≡ laid_text (text_at bytes.now cells.now 96 at) }
{
    let mut kept = [0u8; KEPT];
    let len = read(bytes, cells, at, &mut kept);
    text_of(&kept, len)
}

pub fn name_at(bytes: &[u8], cells: &Cells, at: usize) -> Name
    requires { at < 9047 }
    ensures { result ≡ laid_name (text_at bytes.now cells.now 32 at) }
{
    let mut kept = [0u8; KEPT];
    let len = read(bytes, cells, at, &mut kept);
    if len > NAME {
        return Name::blank();
    }
    name_of(&kept, len)
}

// One number where the text is this word, else another.
pub fn choice(bytes: &[u8], cells: &Cells, at: usize, word: &[u8], one: u8, other: u8) -> u8
    requires { (at < 9047) × (length word.now ≤ 97) }
    ensures { result ≡ cond (same_bytes (text_at bytes.now cells.now 96 at) word.now) one other }
{
    let mut kept = [0u8; KEPT];
    let len = read(bytes, cells, at, &mut kept);
    if is_word(&kept, len, word) {
        return one;
    }
    other
}

pub fn transform_at(bytes: &[u8], cells: &Cells, at: usize) -> Transform
    requires { at < 9047 }
    ensures { result ≡ transform_in (text_at bytes.now cells.now 96 at) }
{
    let mut kept = [0u8; KEPT];
    let len = read(bytes, cells, at, &mut kept);
    transform_of(&kept, len)
}

fn uuid_of(kept: &Kept) -> [u8; 16]
    ensures { result ≡ uuid_bytes kept.now 0 16 }
{
    let mut uuid = [0u8; 16];
    fill(&mut uuid, 16, |i| byte_of(kept, i));
    uuid
}

// Zeros where it is absent.
pub fn uuid_at(bytes: &[u8], cells: &Cells, at: usize) -> [u8; 16]
    requires { at < 9047 }
    ensures { result ≡ uuid_at bytes.now cells.now at }
{
    let mut kept = [0u8; KEPT];
    let len = read(bytes, cells, at, &mut kept);
    if is_uuid(&kept, len) {
        return uuid_of(&kept);
    }
    [0; 16]
}
