// The transforms of a partition field: four words, and `bucket[N]`, where N has digits, no leading zero, and is at most 2147483647.
ghost use Rattle.std.specs.Prelude.{◌≡◌, cond, ◌≤◌, drop};
ghost use Rattle.rules.specs.Words.{all};
ghost use Rattle.json_rule.specs.Lexemes.{is_digit};
ghost use Rattle.json_rule.specs.Values.{digits_value};
ghost use Rattle.json_members.specs.Kept.{front};
ghost use Rattle.json_members.specs.Words.{number_of, transform_words};
ghost use Rattle.json_members.specs.Transforms.{transform_in, is_bracketed};

use crate::kind::{NO_KIND, or_kind};
use crate::word::is_word;
use json_lex::byte::is_digit;
use json_lex::text::Kept;
use records::partition::{BUCKET, DAY, IDENTITY, MONTH, YEAR};

// A transform, or 0 where a text is none; and the number of a bucket, or 0 where it is none.
// Kept: `transform_in` of Transforms (specs/) says both numbers, and `transform_of` answers them.
#[derive(Clone, Copy)]
pub struct Transform {
    pub kind: u8,
    pub buckets: u32,
}

const NO_TRANSFORM: Transform = Transform {
    kind: 0,
    buckets: 0,
};

// The bytes in front of N, and the most digits that N has.
const FRONT: usize = 7;

const DIGITS: usize = 10;

const MOST: u64 = 2147483647;

// The transforms that are words.
fn word_kind(kept: &Kept, len: usize) -> u8
    ensures { result ≡ number_of 0 transform_words (front len kept.now) }
{
    let mut kind = or_kind(NO_KIND, kept, len, b"identity", IDENTITY);
    kind = or_kind(kind, kept, len, b"year", YEAR);
    kind = or_kind(kind, kept, len, b"month", MONTH);
    or_kind(kind, kept, len, b"day", DAY)
}

// Whether a text is `bucket[`, one to ten bytes without a leading zero, and `]`.
fn is_bracketed(kept: &Kept, len: usize) -> bool
    ensures { result ≡ is_bracketed (front len kept.now) }
{
    if len <= FRONT + 1 {
        return false;
    }
    if len > FRONT + DIGITS + 1 {
        return false;
    }
    if !is_word(kept, FRONT, b"bucket[") {
        return false;
    }
    if kept[len - 1] != b']' {
        return false;
    }
    if kept[FRONT] == b'0' {
        return len == FRONT + 2;
    }
    true
}

// What so many digits say; above the most where one of them is none.
fn number_of(kept: &Kept, digits: usize) -> u64
    requires { digits ≤ 10 }
    ensures { result ≡ cond (all is_digit (front digits (drop 7 kept.now))) (digits_value 0 (front digits (drop 7 kept.now))) 2147483648 }
{
    let mut number: u64 = 0;
    for byte in &kept[FRONT..FRONT + digits] {
        if !is_digit(*byte) {
            return MOST + 1;
        }
        number = number * 10 + u64::from(*byte - b'0');
    }
    number
}

pub fn transform_of(kept: &Kept, len: usize) -> Transform
    ensures { result ≡ transform_in (front len kept.now) }
{
    let kind = word_kind(kept, len);
    if kind != NO_KIND {
        return Transform { kind, buckets: 0 };
    }
    if !is_bracketed(kept, len) {
        return NO_TRANSFORM;
    }
    let number = number_of(kept, len - FRONT - 1);
    if number > MOST {
        return NO_TRANSFORM;
    }
    Transform {
        kind: BUCKET,
        buckets: number as u32,
    }
}
