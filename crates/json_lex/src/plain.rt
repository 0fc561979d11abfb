// A text's plain bytes: those that stand for themselves and are a character each. In a text a plain byte is kept and counted, and changes nothing else.
ghost use Rattle.std.specs.Prelude.{◌≡◌, ◌+◌, ◌≤◌, length, drop};
ghost use Rattle.std.proofs.Math.Seq.{slice};
ghost use Rattle.json_rule.specs.Lexemes.{within};
ghost use Rattle.json_machine.specs.Digest.{Keeps, is_plain, plain_run};

use crate::text::{KEPT, Kept};

// A byte that is neither a quotation mark nor a backslash.
fn is_character(byte: u8) -> bool
    ensures { result ≡ within 32 127 byte }
{
    matches!(byte, 32..=127)
}

#[tactic(auto, unfolding(json_machine::specs::Digest::is_plain))]
fn is_plain(byte: u8) -> bool
    ensures { result ≡ is_plain byte }
{
    match byte {
        b'"' | b'\\' => false,
        _ => is_character(byte),
    }
}

// The first place from this one on at which no plain byte stands, or the end of the part.
pub fn plain_end(part: &[u8], from: usize) -> usize
    ensures { result ≡ from + plain_run (drop from part.now) }
{
    let rest = part.get(from..).unwrap_or(&[]);
    for (i, byte) in rest.iter().enumerate() {
        if !is_plain(*byte) {
            return from + i;
        }
    }
    from + rest.len()
}

// How many bytes are kept, with those of a part from a place to an end.
pub fn keep_all(kept: &mut Kept, len: usize, part: &[u8], from: usize, end: usize) -> usize
    requires { end ≤ length part.now }
    ensures { Keeps kept.old len (slice from end part.now) result kept.new }
{
    if end <= from {
        return len;
    }
    let mut count = len;
    for byte in &part[from..end] {
        if count >= KEPT {
            break;
        }
        kept[count] = *byte;
        count += 1;
    }
    count
}
