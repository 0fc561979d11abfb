// Texts that are held: a uuid, a location, the names of a ref and of the open field, and the fields that were closed in the bytes in which they are offered.
ghost use Rattle.std.specs.Prelude.{◌≡◌, ◌+◌, ◌≤◌};
ghost use Rattle.std.proofs.lemmas.List.Edits.{sets};
ghost use Rattle.json_rule.specs.Records.{four_bytes};
ghost use Rattle.json_store.specs.Places.{field_name_at};
ghost use Rattle.json_store.specs.Puts.{part, put_text, put_uuid};

use json_lex::text::Kept;
use json_members::uuid::byte_of;
use records::capacities::NAME;

pub const UUID_AT: usize = 0;

// A location or a name has its length in front.
pub const LOCATION_AT: usize = 16;

pub const REF_NAME_AT: usize = 113;

pub const FIELD_NAME_AT: usize = 146;

pub const FIELDS_AT: usize = 179;

pub const PARTITIONS_AT: usize = 1395;

pub const TEXTS: usize = 1731;

pub type Texts = [u8; TEXTS];

// Its length, its bytes, and zeros up to its room.
// Kept: byte by byte. Slices that are copied here are compiled to `memmove`, which a caller of the archive for C would have to bring (docs/LOOK-BACK.md).
pub(crate) fn put_text(texts: &mut Texts, at: usize, room: usize, kept: &Kept, len: usize)
    requires { (at ≤ 146) × (room ≤ 96) }
    ensures { texts.new ≡ put_text at room kept.now len texts.old }
{
    texts[at] = (len % 256) as u8;
    for i in 0..room {
        let byte = if i < len { kept[i] } else { 0 };
        texts[at + 1 + i] = byte;
    }
}

pub(crate) fn put_uuid(texts: &mut Texts, kept: &Kept)
    ensures { texts.new ≡ put_uuid kept.now texts.old }
{
    for i in 0..16 {
        texts[UUID_AT + i] = byte_of(kept, i);
    }
}

// Four bytes, the lowest first.
pub(crate) fn put_four(texts: &mut Texts, at: usize, number: u64)
    requires { at ≤ 1727 }
    ensures { texts.new ≡ sets texts.old at (four_bytes number) }
{
    texts[at] = (number % 256) as u8;
    texts[at + 1] = (number / 256 % 256) as u8;
    texts[at + 2] = (number / 65536 % 256) as u8;
    texts[at + 3] = (number / 16777216 % 256) as u8;
}

// The name of the open field, with its length, to a place among the fields that were closed.
pub(crate) fn copy_name(texts: &mut Texts, at: usize)
    requires { (179 ≤ at) × (at ≤ 1698) }
    ensures { texts.new ≡ sets texts.old at (part field_name_at 33 texts.old) }
{
    for i in 0..NAME + 1 {
        texts[at + i] = texts[FIELD_NAME_AT + i];
    }
}
