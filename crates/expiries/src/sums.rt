// How many refs and snapshots go and stay.
use cards::card::Card;
use expiry::policy::{NOTHING, Reasons};
use plaintext::template::say_part;
use records::capacities::{REFS, SNAPSHOTS};
use slot_bounds::with_slots;
use tokens::output::Output;

fn refs_going(reasons: Reasons, count: usize) -> usize {
    let n = with_slots(count, REFS);
    reasons.goes[..n].iter().filter(|goes| **goes).count()
}

fn snapshots_going(reasons: Reasons, count: usize) -> usize {
    let n = with_slots(count, SNAPSHOTS);
    reasons.stays[..n]
        .iter()
        .filter(|stays| stays.why == NOTHING)
        .count()
}

fn less(all: usize, going: usize) -> usize {
    if going < all { all - going } else { 0 }
}

// As the numbers of a card are signed, what has no slot is left out.
fn number(count: usize) -> i64 {
    with_slots(count, SNAPSHOTS) as i64
}

// Refs and snapshots: those that go, all, those that stay; how many snapshots fit then.
fn sums(reasons: Reasons, refs: usize, snapshots: usize) -> Card {
    let refs_gone = refs_going(reasons, refs);
    let gone = snapshots_going(reasons, snapshots);
    let staying = less(snapshots, gone);
    Card::of_numbers(
        [
            number(refs_gone),
            number(refs),
            number(gone),
            number(snapshots),
            number(less(refs, refs_gone)),
            number(staying),
            number(less(SNAPSHOTS, staying)),
            0,
        ],
        [0, 0],
    )
}

pub fn say_sums(output: &mut Output, reasons: Reasons, refs: usize, snapshots: usize) {
    let template =
        b"  in all: #0 of #1 refs and #2 of #3 snapshots go, #4 refs and #5 snapshots stay, and #6 new snapshots fit then\n";
    let card = sums(reasons, refs, snapshots);
    say_part(output, template, 0, 0, card);
}
