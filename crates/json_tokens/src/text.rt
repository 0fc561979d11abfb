// A text, behind its quotation mark.
ghost use Rattle.std.specs.Prelude.{◌≡◌, ◌≤◌, length};
ghost use Rattle.std.proofs.Math.Seq.{slice};
ghost use Rattle.json_machine.specs.Digest.{held, keeping, settled_held};
ghost use Rattle.json_tokens.specs.Outcomes.{answer, text_token, text_answer, text_from};

use crate::token::{BROKEN, Token, WHOLE};
use json_lex::mode::{TEXT, after};
use json_lex::plain::{keep_all, plain_end};
use json_lex::text::{Kept, Text, settled, with_byte};
use json_lex::{mode, text};

fn text_token(state: usize, first: usize, at: usize, len: usize) -> Token
    ensures { result ≡ text_token state first at len }
{
    Token {
        state,
        head: b'"',
        first,
        after: at,
        stop: at,
        len,
        integer: false,
        magnitude: 0,
    }
}

// The text with the plain bytes from a place to an end, of which there are some.
fn with_plain(text: Text, kept: &mut Kept, bytes: &[u8], from: usize, end: usize) -> Text
    requires { end ≤ length bytes.now }
    ensures { held result kept.new ≡ keeping (slice from end bytes.now) (settled_held (held text kept.old)) }
{
    let before = settled(text);
    Text {
        len: keep_all(kept, before.len, bytes, from, end),
        ..before
    }
}

// The text that begins at `first`; its bytes from a place on.
pub fn read_text(bytes: &[u8], first: usize, from: usize, kept: &mut Kept) -> Token
    ensures { answer result kept.new ≡ text_answer first (text_from bytes.now from kept.old) }
{
    let mut mode = TEXT;
    let mut text = text::blank();
    let mut i = from;
    // Kept: the place goes by runs of plain bytes as well as by single bytes, so an iterator over the bytes would say less than the place does.
    while i < bytes.len() {
        if mode == TEXT {
            let end = plain_end(bytes, i);
            if end > i {
                text = with_plain(text, kept, bytes, i, end);
                i = end;
                continue;
            }
        }
        let byte = bytes[i];
        let next = after(mode, byte);
        if next == mode::BROKEN {
            return text_token(BROKEN, first, i, text.len);
        }
        text = with_byte(text, kept, mode, byte);
        mode = next;
        i += 1;
        if next == mode::WHOLE {
            return text_token(WHOLE, first, i, text.len);
        }
    }
    text_token(BROKEN, first, i, text.len)
}
