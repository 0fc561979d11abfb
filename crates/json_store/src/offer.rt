// What a closed update offers, behind what those before it offer.
ghost use Rattle.std.specs.Prelude.{◌≡◌, ◌+◌, ◌≤◌};
ghost use Rattle.std.proofs.lemmas.List.Edits.{sets};
ghost use Rattle.json_members.specs.Slots.{kind_in};
ghost use Rattle.json_store.specs.Puts.{part};
ghost use Rattle.json_store.specs.Made.{offer_in, offers_with, offers_end};
ghost use Rattle.json_store.specs.Parts.{offer_at, offer_length};

use crate::numbers::{Numbers, count_at};
use crate::texts::{FIELDS_AT, PARTITIONS_AT, Texts};
use json_members::spot;
use json_members::spot::SPEC_FIELDS;
use json_members::state::{Judge, kind_of};
use records::capacities::{FIELD_BYTES, OFFERS, PARTITION_BYTES, PARTITION_FIELDS, SCHEMA_FIELDS};
use records::update::{ADD_PARTITION_SPEC, ADD_SCHEMA};

pub type Offers = [u8; OFFERS];

// Where the offer of a kind stands among the texts.
#[tactic(auto, unfolding(crate::specs::Parts::offer_at))]
fn offer_at(kind: u8) -> usize
    ensures { result ≡ offer_at kind }
{
    if kind == ADD_SCHEMA {
        return FIELDS_AT;
    }
    PARTITIONS_AT
}

fn offer_length(kind: u8, numbers: &Numbers) -> usize
    ensures { (result ≡ offer_length kind numbers.now) × (offer_at kind + result ≤ 1731) }
{
    match kind {
        ADD_SCHEMA => count_at(numbers, spot::SCHEMA_FIELDS, SCHEMA_FIELDS) * FIELD_BYTES,
        ADD_PARTITION_SPEC => count_at(numbers, SPEC_FIELDS, PARTITION_FIELDS) * PARTITION_BYTES,
        _ => 0,
    }
}

fn copy_offer(offers: &mut Offers, place: usize, texts: &Texts, from: usize, len: usize)
    requires { (place + len ≤ 77824) × (from + len ≤ 1731) }
    ensures { offers.new ≡ sets offers.old place (part from len texts.now) }
{
    offers[place..place + len].copy_from_slice(&texts[from..from + len]);
}

// The offer of the closed update from a place on, if there is room; and where the next begins.
pub fn append_offer(
    offers: &mut Offers,
    place: usize,
    judge: &Judge,
    numbers: &Numbers,
    texts: &Texts,
) -> usize
    ensures { (offers.new ≡ offers_with place (offer_in (kind_in judge.now) numbers.now texts.now) offers.old) × (result ≡ offers_end place (offer_in (kind_in judge.now) numbers.now texts.now)) }
{
    let kind = kind_of(judge);
    let from = offer_at(kind);
    let len = offer_length(kind, numbers);
    if place > OFFERS - len {
        return place;
    }
    copy_offer(offers, place, texts, from, len);
    place + len
}
