// Why an expiry is refused: its number, and in words which part of the metadata is at fault, or which branch leads back to what it keeps.
use cards::card::Card;
use cards::record::name_text;
use expiry::expiring_updates;
use expiry::policy::Policy;
use plaintext::reply::say_fault;
use plaintext::template::say_part;
use plaintext::text::say;
use records::capacities::REFS;
use records::counters::{Age, MinSnapshots};
use records::metadata::TableMetadata;
use records::reference::{NamedRef, Refs};
use records::replies::{MET_TWICE, OFFICE_UNKNOWN, START_NOT_FORMED, UPDATE_NOT_FORMED};
use records::text::Name;
use slot_bounds::with_slots;
use tokens::output::Output;

const TAG: u8 = 2;

// A tag keeps what it names and no ancestor, so that none comes again.
fn as_tag(named: NamedRef) -> NamedRef {
    let mut tag = named;
    tag.reference.kind = TAG;
    tag.reference.has_min = false;
    tag.reference.min_snapshots_to_keep = MinSnapshots(0);
    tag.reference.has_age = false;
    tag.reference.max_snapshot_age_ms = Age(0);
    tag
}

// The refs, as tags but for one.
fn all_tags_but(refs: Refs, at: usize) -> Refs {
    let mut tags = refs;
    let n = with_slots(refs.count, REFS);
    for (i, &named) in refs.items[..n].iter().enumerate() {
        if i != at {
            tags.items[i] = as_tag(named);
        }
    }
    tags
}

// Whether the ref at a place is one for which the expiry is refused with 24: by itself it is too.
fn is_cyclic(metadata: TableMetadata, policy: Policy, at: usize) -> bool {
    let mut alone = metadata;
    alone.refs = all_tags_but(metadata.refs, at);
    expiring_updates(alone, policy).number == MET_TWICE
}

// The first of them, in table order.
fn cyclic_name(metadata: TableMetadata, policy: Policy) -> Name {
    let refs = metadata.refs;
    let n = with_slots(refs.count, REFS);
    for (i, named) in refs.items[..n].iter().enumerate() {
        if is_cyclic(metadata, policy, i) {
            return named.name;
        }
    }
    Name::blank()
}

#[derive(Clone, Copy)]
pub struct Refusal {
    pub number: u8,
    pub fault: u8,
    pub branch: Name,
}

pub fn refusal_of(metadata: TableMetadata, policy: Policy, number: u8, fault: u8) -> Refusal {
    let mut branch = Name::blank();
    if number == MET_TWICE {
        branch = cyclic_name(metadata, policy);
    }
    Refusal {
        number,
        fault,
        branch,
    }
}

fn words_of(number: u8) -> &'static [u8] {
    match number {
        START_NOT_FORMED => b"refused #0: the metadata is not well formed: ",
        OFFICE_UNKNOWN => b"refused #0: office not 1 or 2",
        UPDATE_NOT_FORMED => b"refused #0: a default is below 1",
        _ => b"refused #0: the parents of branch $ lead back to a snapshot that it keeps",
    }
}

// As `refused 3: a default is below 1`.
pub fn say_refusal(output: &mut Output, refusal: Refusal) {
    let number = refusal.number;
    let card = Card::of_number(number as i64).with_text(name_text(refusal.branch));
    say_part(output, words_of(number), 0, 0, card);
    if number == START_NOT_FORMED {
        say_fault(output, refusal.fault);
    }
    say(output, b"\n");
}
