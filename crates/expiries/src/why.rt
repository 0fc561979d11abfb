// Why a ref or a snapshot stays or goes: as a card, and in words.
use cards::card::{Card, wide};
use cards::record::name_text;
use expiry::policy::{
    NAMED, NOTHING, OTHERS_NEED, Policy, WITHIN_AGE, WITHIN_COUNT, own_age, own_count,
};
use plaintext::template::say_part;
use primitives::names::is_main;
use records::reference::NamedRef;
use records::snapshot::Snapshot;
use records::text::Name;
use slot_bounds::lent;
use tokens::output::Output;

const BRANCH: u8 = 1;

// Whether a ref goes, and why it stays.
#[derive(Clone, Copy)]
enum Fate {
    Goes,
    IsMain,
    IsOthers,
    IsYoung,
}

fn is_named_main(name: Name) -> bool {
    let len = lent(&name.bytes, name.len);
    is_main(&name.bytes[..len])
}

fn fate_of(named: NamedRef, office: u8, goes: bool) -> Fate {
    if goes {
        return Fate::Goes;
    }
    if named.owner != office {
        return Fate::IsOthers;
    }
    if is_named_main(named.name) {
        return Fate::IsMain;
    }
    Fate::IsYoung
}

// An own branch that stays keeps ancestors.
fn keeps_more(kind: u8, fate: Fate) -> bool {
    kind == BRANCH && matches!(fate, Fate::IsMain | Fate::IsYoung)
}

// name; snapshot id, kind, ref age, whether it keeps ancestors, count, age; owner
fn ref_card(named: NamedRef, policy: Policy, fate: Fate) -> Card {
    let r = named.reference;
    let count = own_count(r.has_min, r.min_snapshots_to_keep, policy.min_snapshots);
    let age = own_age(r.has_age, r.max_snapshot_age_ms, policy.max_snapshot_age_ms);
    let ref_age = own_age(r.has_ref_age, r.max_ref_age_ms, policy.max_ref_age_ms);
    let numbers = Card::of_numbers(
        [
            r.snapshot_id.0,
            r.kind as i64,
            ref_age.0,
            keeps_more(r.kind, fate) as i64,
            wide(count.0),
            age.0,
            0,
            0,
        ],
        [named.owner as u64, 0],
    );
    numbers.with_text(name_text(named.name))
}

fn words_of_fate(fate: Fate) -> &'static [u8] {
    match fate {
        Fate::Goes => b"goes: older than its limit of #2 ms",
        Fate::IsMain => b"stays: `main` always does",
        Fate::IsOthers => b"stays: it is of office %0",
        Fate::IsYoung => b"stays: not older than its limit of #2 ms",
    }
}

pub fn say_ref(output: &mut Output, named: NamedRef, policy: Policy, goes: bool) {
    let fate = fate_of(named, policy.office, goes);
    let card = ref_card(named, policy, fate);
    let kept = b"?3{|, and keeps at least #4 snapshots and those not older than #5 ms}\n";
    say_part(
        output,
        b"    ?1{|branch|tag} $ at snapshot #0: ",
        0,
        0,
        card,
    );
    say_part(output, words_of_fate(fate), 0, 0, card);
    say_part(output, kept, 0, 0, card);
}

// id, has_parent, parent, time, kind of the ref; owner; name of the ref
fn snapshot_card(s: Snapshot, by: NamedRef) -> Card {
    let numbers = Card::of_numbers(
        [
            s.snapshot_id.0,
            s.has_parent as i64,
            s.parent_snapshot_id.0,
            s.timestamp_ms.0,
            by.reference.kind as i64,
            0,
            0,
            0,
        ],
        [by.owner as u64, 0],
    );
    numbers.with_text(name_text(by.name))
}

// A reason that is a ref's names that ref, and its office where it is the other's.
fn words_of_reason(why: u8) -> &'static [u8] {
    match why {
        NOTHING => b"goes: nothing keeps it\n",
        NAMED => b"stays: named by ?4{|branch $|tag $}\n",
        WITHIN_COUNT => b"stays: within the count of ?4{|branch $|tag $}\n",
        WITHIN_AGE => b"stays: within the age of ?4{|branch $|tag $}\n",
        OTHERS_NEED => b"stays: reached by ?4{|branch $|tag $} of office %0\n",
        _ => b"stays: named by the snapshot log\n",
    }
}

pub fn say_snapshot(output: &mut Output, s: Snapshot, why: u8, by: NamedRef) {
    let template = b"    #0 (?1{no parent|parent #2}, at #3 (@3)): ";
    let card = snapshot_card(s, by);
    say_part(output, template, 0, 0, card);
    say_part(output, words_of_reason(why), 0, 0, card);
}
