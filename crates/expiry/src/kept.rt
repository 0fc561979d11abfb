// Which refs go, and why each held snapshot stays.
ghost use Rattle.std.specs.Prelude.{◌≡◌, true, List, ◌≤◌, length};
ghost use Rattle.std.specs.Int.Signed.{lt_z};
ghost use Rattle.rules.specs.Words.{ascending, pair_up};
ghost use Rattle.rules.specs.Capacities.{snapshot_room};
ghost use Rattle.rules.specs.Register as plain;
ghost use Rattle.rules.specs.WellFormed.{snapshot_below};
ghost use Rattle.rules.specs.Walk.{snapshot_ids};
ghost use Rattle.rules.specs.Layout.{read_reference, read_ref, read_refs, read_snapshots, read_snapshot_log};
ghost use Rattle.tables.specs.Laid.{LaidName, LaidRefs, LaidSnapshots, LaidSnapshotLog};
ghost use Rattle.retention.specs.Retention.{count_of, age_of, goes as goesBy};
ghost use Rattle.expiry.specs.Answer.{read_policy, no_reason};
ghost use Rattle.expiry.specs.Found.{slotted, place_in, snapshot_times, Placed, kept_of, log_reason, overlay, found_of, Shown};

use crate::policy::{LOG_NAMES, NOTHING, Policy, Reason, Reasons, own_age, own_count};
use crate::walks::{
    Limits, branch_marks, is_older, parent_places, reach_marks, tag_marks, times_of,
};
use records::capacities::{REFS, SNAPSHOTS};
use records::reference::{NamedRef, Refs, SnapshotReference};
use records::run::SECOND_OFFICE;
use records::snapshot::{SnapshotLog, Snapshots};
use search::position_ascending;
use tables::keys::snapshot_key;
use tables::names::is_main_name;
use tables::snapshots::{ids_of, parents_of};

// The kind of a ref that is a branch.
const BRANCH: u8 = 1;

// What is found of a ref: whether it goes, whether its walk meets a snapshot twice, and why each held snapshot stays for it.
// Kept: `kept_of` and `found_of` of specs/Found.antt are stated over the members of these two, also where a snapshot is met twice.
#[derive(Clone, Copy)]
pub struct Kept {
    pub goes: bool,
    pub twice: bool,
    pub slots: [u8; SNAPSHOTS],
}

// What is found of all, and whether a walk meets a snapshot twice.
#[derive(Clone, Copy)]
pub struct Found {
    pub cyclic: bool,
    pub reasons: Reasons,
}

fn limits_of(policy: Policy, r: SnapshotReference) -> Limits
    ensures { result ≡ record { clock = policy.clock_ms; count = record { 0 = count_of (read_policy policy) (read_reference r) }; age = record { 0 = age_of (read_policy policy) (read_reference r) } } }
{
    Limits {
        clock: policy.clock_ms,
        count: own_count(r.has_min, r.min_snapshots_to_keep, policy.min_snapshots),
        age: own_age(r.has_age, r.max_snapshot_age_ms, policy.max_snapshot_age_ms),
    }
}

// A ref of the office but `main` goes when its snapshot is past its ref age.
fn ref_goes(policy: Policy, x: NamedRef, times: &[i64], start: usize) -> bool
    requires { LaidName x.name }
    ensures { (snapshots : List plain.Snapshot) → times.now ≡ snapshot_times snapshots → start ≡ place_in (snapshot_ids snapshots) x.reference.snapshot_id.0 → result ≡ goesBy (read_policy policy) snapshots (read_ref x) }
{
    let r = x.reference;
    let age = own_age(r.has_ref_age, r.max_ref_age_ms, policy.max_ref_age_ms);
    let old = is_older(times, start, age, policy.clock_ms);
    !is_main_name(x.name) & (x.owner == policy.office) & old
}

// What the ref keeps, whose snapshot stands at a place.
fn ref_kept(policy: Policy, x: NamedRef, over: &[usize], times: &[i64], start: usize) -> Kept
    requires laid_name { LaidName x.name }
    requires over_len_bound { length over.now ≤ snapshot_room }
    ensures { (snapshots : List plain.Snapshot) → Placed snapshots over.now → times.now ≡ snapshot_times snapshots → start ≡ place_in (snapshot_ids snapshots) x.reference.snapshot_id.0 → result ≡ kept_of (read_policy policy) snapshots (read_ref x) }
{
    let goes = ref_goes(policy, x, times, start);
    if x.owner != policy.office {
        let slots = reach_marks(over, start);
        return Kept {
            goes,
            twice: false,
            slots,
        };
    }
    if goes {
        return Kept {
            goes,
            twice: false,
            slots: [NOTHING; SNAPSHOTS],
        };
    }
    if x.reference.kind == BRANCH {
        let marks = branch_marks(over, times, start, limits_of(policy, x.reference));
        let slots = marks.slots;
        return Kept {
            goes,
            twice: marks.twice,
            slots,
        };
    }
    let slots = tag_marks(over.len(), start);
    Kept {
        goes,
        twice: false,
        slots,
    }
}

// The reasons with those of one ref over them.
fn overlaid(
    mut stays: [Reason; SNAPSHOTS],
    slots: [u8; SNAPSHOTS],
    by: usize,
) -> [Reason; SNAPSHOTS]
    ensures { result ≡ pair_up (overlay by) stays slots }
{
    for (k, why) in slots.iter().enumerate() {
        if *why != NOTHING {
            stays[k] = Reason { why: *why, by };
        }
    }
    stays
}

// For the second office all that the snapshot log names stays.
fn logged(office: u8, log: SnapshotLog, ids: &[i64]) -> [Reason; SNAPSHOTS]
    requires laid_snapshot_log { LaidSnapshotLog log }
    requires ids_value { ascending lt_z ids.now ≡ true }
    requires ids_len_bound { length ids.now ≤ snapshot_room }
    ensures { result ≡ slotted no_reason (log_reason office (read_snapshot_log log)) ids.now }
{
    let mut stays = Reasons::blank().stays;
    if office != SECOND_OFFICE {
        return stays;
    }
    for entry in &log.items[..log.count] {
        let place = position_ascending(ids, snapshot_key(entry.snapshot_id).0);
        if place < ids.len() {
            stays[place] = Reason {
                why: LOG_NAMES,
                by: 0,
            };
        }
    }
    stays
}

// From the last ref to the first, so that what is found of the first stands in the end.
fn refs_findings(
    policy: Policy,
    refs: Refs,
    ids: &[i64],
    over: &[usize],
    times: &[i64],
    named: [Reason; SNAPSHOTS],
) -> Found
    requires laid_refs { LaidRefs refs }
    requires ids_value { ascending lt_z ids.now ≡ true }
    requires over_len_bound { length over.now ≤ snapshot_room }
    ensures { (m : plain.Metadata) → read_refs refs ≡ m.refs → ids.now ≡ snapshot_ids m.snapshots → Placed m.snapshots over.now → times.now ≡ snapshot_times m.snapshots → named ≡ slotted no_reason (log_reason policy.office m.snapshot_log) (snapshot_ids m.snapshots) → result ≡ found_of (read_policy policy) m }
{
    let mut goes = [false; REFS];
    let mut stays = named;
    let mut cyclic = false;
    for i in (0..refs.count).rev() {
        let x = refs.items[i];
        let start = position_ascending(ids, snapshot_key(x.reference.snapshot_id).0);
        let kept = ref_kept(policy, x, over, times, start);
        goes[i] = kept.goes;
        cyclic |= kept.twice;
        let next = overlaid(stays, kept.slots, i);
        stays = next;
    }
    Found {
        cyclic,
        reasons: Reasons { goes, stays },
    }
}

// What a policy finds in the tables of well-formed metadata.
pub fn findings(policy: Policy, refs: Refs, snapshots: Snapshots, log: SnapshotLog) -> Found
    requires laid_refs { LaidRefs refs }
    requires laid_snapshots { LaidSnapshots snapshots }
    requires snapshots_value { ascending snapshot_below (read_snapshots snapshots) ≡ true }
    requires laid_snapshot_log { LaidSnapshotLog log }
    ensures { (m : plain.Metadata) → Shown m (read_refs refs) (read_snapshots snapshots) (read_snapshot_log log) → result ≡ found_of (read_policy policy) m }
{
    let held = snapshots.count;
    let ids = ids_of(snapshots);
    let parents = parents_of(snapshots);
    let times = times_of(snapshots);
    let over = parent_places(&ids[..held], &parents[..held]);
    let named = logged(policy.office, log, &ids[..held]);
    refs_findings(
        policy,
        refs,
        &ids[..held],
        &over[..held],
        &times[..held],
        named,
    )
}
