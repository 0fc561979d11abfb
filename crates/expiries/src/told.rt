// An expiry in plain words: what is asked; each ref and each snapshot, in table order, with why it stays or goes; the list; and what the run of the list
// answers. Or the refusal.
use crate::asked::Asked;
use crate::list::{put_list, put_run};
use crate::refusal::{Refusal, refusal_of, say_refusal};
use crate::sums::say_sums;
use crate::why::{say_ref, say_snapshot};
use cards::card::{Card, wide};
use expiry::Expiry;
use expiry::policy::{Policy, Reasons};
use faults::fault;
use plaintext::reply::say_refusal as say_run_refusal;
use plaintext::table::say_heading;
use plaintext::template::say_part;
use plaintext::text::say;
use plaintext::update::say_updates;
use records::capacities::{REFS, SNAPSHOTS};
use records::metadata::TableMetadata;
use records::reference::Refs;
use records::run::FIRST_OFFICE;
use records::snapshot::Snapshots;
use records::update::UpdateList;
use slot_bounds::with_slots;
use tokens::output::Output;

// clock, whether the office is not the first, count, age, ref age; office, number of the piece
fn policy_card(policy: Policy, number: usize) -> Card {
    Card::of_numbers(
        [
            policy.clock_ms.0,
            (policy.office != FIRST_OFFICE) as i64,
            wide(policy.min_snapshots.0),
            policy.max_snapshot_age_ms.0,
            policy.max_ref_age_ms.0,
            0,
            0,
            0,
        ],
        [policy.office as u64, number as u64],
    )
}

// The office is said if it is not the first.
fn say_policy(output: &mut Output, policy: Policy, number: usize) {
    let template = b"expiry %1\
        \nwhat is asked\
        ?1{|\n  office: %0}\
        \n  clock: #0 (@0)\
        \n  where a ref says nothing else, a branch keeps at least #2 snapshots and those not older than #3 ms, and a ref stays for #4 ms\n";
    say_part(output, template, 0, 0, policy_card(policy, number));
}

fn say_refs(output: &mut Output, refs: Refs, policy: Policy, found: Reasons) {
    let n = with_slots(refs.count, REFS);
    say_heading(output, b"refs", refs.count);
    for (&named, &goes) in refs.items[..n].iter().zip(&found.goes) {
        say_ref(output, named, policy, goes);
    }
}

fn say_snapshots(output: &mut Output, snapshots: Snapshots, refs: Refs, found: Reasons) {
    let n = with_slots(snapshots.count, SNAPSHOTS);
    say_heading(output, b"snapshots", snapshots.count);
    for (&snapshot, &stays) in snapshots.items[..n].iter().zip(&found.stays) {
        let by = with_slots(stays.by, REFS - 1);
        let named = refs.items[by];
        say_snapshot(output, snapshot, stays.why, named);
    }
}

fn say_reasons(
    output: &mut Output,
    refs: Refs,
    snapshots: Snapshots,
    policy: Policy,
    found: Reasons,
) {
    say(output, b"what goes and what stays\n");
    say_refs(output, refs, policy, found);
    say_snapshots(output, snapshots, refs, found);
    say_sums(output, found, refs.count, snapshots.count);
}

// In words, and on a line of its own as it stands in a run.
fn say_list(output: &mut Output, list: UpdateList) {
    say(output, b"the list\n");
    say_updates(output, b"updates", list, b"");
    say(output, b"  as a run has them: ");
    put_list(output, list);
    output.end_line();
}

// What is found beside the list: why each ref and snapshot stays or goes, or why there is none. It is asked before anything is said, so that less stack
// is needed.
#[derive(Clone, Copy)]
pub struct Found {
    pub reasons: Reasons,
    pub refusal: Refusal,
}

pub fn find(metadata: TableMetadata, policy: Policy, number: u8, fault: u8) -> Found {
    let reasons = expiry::reasons(metadata, policy);
    let refusal = refusal_of(metadata, policy, number, fault);
    Found { reasons, refusal }
}

// What is asked, what is found, and the list or the refusal.
fn say_expiry(
    output: &mut Output,
    number: usize,
    refs: Refs,
    snapshots: Snapshots,
    policy: Policy,
    expiry: Expiry,
    found: Found,
) {
    say_policy(output, policy, number);
    if expiry.number == 0 {
        say_reasons(output, refs, snapshots, policy, found.reasons);
        say_list(output, expiry.updates);
    } else {
        say_refusal(output, found.refusal);
    }
}

// In words; or, where the run of the list is asked no times, that run in numbers.
pub fn tell(
    output: &mut Output,
    times: u64,
    number: usize,
    asked: Asked,
    expiry: Expiry,
    found: Found,
) {
    if times > 0 {
        say_expiry(
            output,
            number,
            asked.metadata.refs,
            asked.metadata.snapshots,
            asked.policy,
            expiry,
            found,
        );
    } else if expiry.number == 0 {
        put_run(output, asked, expiry.updates);
    } else {
        say_refusal(output, found.refusal);
    }
}

// A run that has no file name starts from what the expiry found well formed.
pub fn say_outcome(output: &mut Output, number: u8, place: usize) {
    say(output, b"the run of the list: ");
    if number == 0 {
        say(output, b"accepted");
    } else {
        say_run_refusal(output, number, place, fault::NONE);
    }
    say(output, b"\n");
}
