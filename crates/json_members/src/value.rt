// What is wrong with a value that is no list and no object: 0 where nothing is.
ghost use Rattle.std.specs.Prelude.{◌≡◌, cond, leb};
ghost use Rattle.json_members.specs.Kept.{front};
ghost use Rattle.json_members.specs.Faults.{is_formed_at, text_fault_at, number_fault_at, fault_at};

use crate::bucket::transform_of;
use crate::kind::{NO_KIND, NO_SIDE, direction, field_type, null_order, ref_kind};
use crate::refusal::{NOT_PUBLISHED, OVER_CAPACITY};
use crate::spot::{
    DIRECTION, FIELD_NAME, FIELD_REQUIRED, FIELD_TYPE, LOCATION, NULL_ORDER, PARTITION_NAME,
    PARTITION_TRANSFORM, REF_NAME, REF_TYPE, SCHEMA_TYPE, SORT_TRANSFORM, UUID,
};
use crate::uuid::is_uuid;
use crate::width::{has, width_of};
use crate::word::is_word;
use json_lex::byte::is_digit;
use json_lex::text::{Kept, LONE};
use records::capacities::{NAME, TEXT};

const RIGHT: usize = 0;

fn unless(right: bool) -> usize
    ensures { result ≡ cond right 0 28 }
{
    if right {
        return RIGHT;
    }
    NOT_PUBLISHED
}

// A text of at most so many bytes.
fn length_fault(len: usize, room: usize) -> usize
    ensures { result ≡ cond (leb len room) 0 29 }
{
    if len <= room {
        return RIGHT;
    }
    OVER_CAPACITY
}

// Whether a text is one of the words, or of the form, that are wanted.
fn is_formed(spot: usize, kept: &Kept, len: usize) -> bool
    ensures { result ≡ is_formed_at spot (front len kept.now) }
{
    match spot {
        UUID => is_uuid(kept, len),
        REF_TYPE => ref_kind(kept, len) != NO_KIND,
        SCHEMA_TYPE => is_word(kept, len, b"struct"),
        FIELD_TYPE => field_type(kept, len) != NO_KIND,
        SORT_TRANSFORM => is_word(kept, len, b"identity"),
        DIRECTION => direction(kept, len) != NO_SIDE,
        NULL_ORDER => null_order(kept, len) != NO_SIDE,
        PARTITION_TRANSFORM => {
            let t = transform_of(kept, len);
            t.kind != NO_KIND
        }
        _ => false,
    }
}

// A text with a lone half of a pair has no UTF-8, so it is none that is published.
#[tactic(auto, unfolding(crate::specs::Faults::form_fault_at))]
fn text_fault(spot: usize, kept: &Kept, len: usize) -> usize
    ensures { result ≡ text_fault_at spot kept.now len }
{
    if len == LONE {
        return NOT_PUBLISHED;
    }
    match spot {
        LOCATION => length_fault(len, TEXT),
        REF_NAME | FIELD_NAME | PARTITION_NAME => length_fault(len, NAME),
        _ => unless(is_formed(spot, kept, len)),
    }
}

fn number_fault(spot: usize, negative: bool, integer: bool, magnitude: u64) -> usize
    ensures { result ≡ number_fault_at spot negative integer magnitude }
{
    if !integer {
        return NOT_PUBLISHED;
    }
    unless(has(width_of(spot), negative, magnitude))
}

// What is wrong with a whole text, number or word at a spot.
#[tactic(auto, unfolding(crate::specs::Faults::fault_at))]
pub fn fault_of(
    spot: usize,
    kept: &Kept,
    head: u8,
    len: usize,
    integer: bool,
    magnitude: u64,
) -> usize
    ensures { result ≡ fault_at spot kept.now head len integer magnitude }
{
    if head == b'"' {
        return text_fault(spot, kept, len);
    }
    if head == b'-' {
        return number_fault(spot, true, integer, magnitude);
    }
    if is_digit(head) {
        return number_fault(spot, false, integer, magnitude);
    }
    if head == b'f' {
        return unless(spot == FIELD_REQUIRED);
    }
    NOT_PUBLISHED
}
