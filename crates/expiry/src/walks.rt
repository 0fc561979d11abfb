// What a ref keeps of the held snapshots, each known by its place in the table. A walk goes from place to place: of each held snapshot the place of its parent
// is lent, which is the number of the held where the parent is not among them.
ghost use Rattle.std.specs.Prelude.{◌≡◌, true, cond, List, [], ◌∷◌, ◌≤◌, eqb, ℤ, pos, length};
ghost use Rattle.std.specs.Int.Signed.{lt_z};
ghost use Rattle.rules.specs.Words.{is_in, ascending};
ghost use Rattle.rules.specs.Capacities.{snapshot_room};
ghost use Rattle.rules.specs.Register as plain;
ghost use Rattle.rules.specs.Walk.{reach, snapshot_ids};
ghost use Rattle.rules.specs.Layout.{pad, read_snapshots};
ghost use Rattle.tables.specs.Laid.{LaidSnapshots};
ghost use Rattle.retention.specs.Reasons.{nothing, named, within_count, within_age, others_need, place_of, why_at};
ghost use Rattle.expiry.specs.Found.{marked, place_in, parent_places, snapshot_times, Placed, is_older_at, branch_marks};

use crate::policy::{NAMED, NOTHING, OTHERS_NEED, WITHIN_AGE, WITHIN_COUNT};
use primitives::window::is_before;
use records::capacities::SNAPSHOTS;
use records::counters::{Age, MinSnapshots, Time};
use records::snapshot::Snapshots;
use search::position_ascending;

// How far a branch keeps its ancestors.
#[derive(Clone, Copy)]
pub struct Limits {
    pub clock: Time,
    pub count: MinSnapshots,
    pub age: Age,
}

// Why each held snapshot stays for a branch, and whether its walk met one twice; then nothing is marked.
// Kept: `branch_marks` of specs/Found.antt is stated over both, and says of the slots what they are where one is met twice.
#[derive(Clone, Copy)]
pub struct Marks {
    pub slots: [u8; SNAPSHOTS],
    pub twice: bool,
}

fn milliseconds(time: Time) -> i64
    ensures { result ≡ time.0 }
{
    time.0
}

// The times, in table order, and zeros after them.
pub fn times_of(t: Snapshots) -> [i64; SNAPSHOTS]
    requires { LaidSnapshots t }
    ensures { result ≡ pad snapshot_room (pos 0) (snapshot_times (read_snapshots t)) }
{
    let mut times = [0i64; SNAPSHOTS];
    for (i, snapshot) in t.items[..t.count].iter().enumerate() {
        times[i] = milliseconds(snapshot.timestamp_ms);
    }
    times
}

// The places of the parents, and zeros after them.
pub fn parent_places(ids: &[i64], parents: &[i64]) -> [usize; SNAPSHOTS]
    requires order { ascending lt_z ids.now ≡ true }
    requires room { length ids.now ≤ snapshot_room }
    requires pairs { length ids.now ≡ length parents.now }
    ensures { result ≡ pad snapshot_room 0 (parent_places ids.now parents.now) }
{
    let mut places = [0usize; SNAPSHOTS];
    for (i, parent) in parents.iter().enumerate() {
        places[i] = position_ascending(ids, *parent);
    }
    places
}

// The snapshot at a place is past an age; one that is not held is not.
pub fn is_older(times: &[i64], place: usize, age: Age, clock: Time) -> bool
    ensures { result ≡ is_older_at times.now place age.0 clock.0 }
{
    place < times.len() && is_before(age, Time(times[place]), clock)
}

// One that so many stand before is among the first so many.
fn is_counted(listed: usize, count: MinSnapshots) -> bool
    requires { listed ≤ snapshot_room }
    ensures { result ≡ lt_z (pos listed) count.0 }
{
    (listed as i64) < i64::from(count.0)
}

// Why a snapshot stays that so many stand before on its branch.
fn why_at(listed: usize, counted: bool) -> u8
    ensures { result ≡ cond (eqb listed 0) named (cond counted within_count within_age) }
{
    if listed == 0 {
        return NAMED;
    }
    if counted {
        return WITHIN_COUNT;
    }
    WITHIN_AGE
}

// A branch keeps its walk up to the first that is neither within the count nor within the age.
pub fn branch_marks(over: &[usize], times: &[i64], start: usize, limits: Limits) -> Marks
    requires { length over.now ≤ snapshot_room }
    ensures { (snapshots : List plain.Snapshot) (id : ℤ) → Placed snapshots over.now → times.now ≡ snapshot_times snapshots → start ≡ place_in (snapshot_ids snapshots) id → result ≡ branch_marks limits snapshots id }
{
    let mut slots = [NOTHING; SNAPSHOTS];
    let mut listed: usize = 0;
    let mut place = start;
    while place < over.len() {
        let counted = is_counted(listed, limits.count);
        if !counted & is_older(times, place, limits.age, limits.clock) {
            return Marks {
                slots,
                twice: false,
            };
        }
        if slots[place] != NOTHING {
            return Marks {
                slots: [NOTHING; SNAPSHOTS],
                twice: true,
            };
        }
        slots[place] = why_at(listed, counted);
        listed += 1;
        place = over[place];
    }
    Marks {
        slots,
        twice: false,
    }
}

// A ref of the other office keeps all that it reaches. Its walk ends where a parent is not held, or is marked already.
pub fn reach_marks(over: &[usize], start: usize) -> [u8; SNAPSHOTS]
    requires { length over.now ≤ snapshot_room }
    ensures { (snapshots : List plain.Snapshot) (id : ℤ) → Placed snapshots over.now → start ≡ place_in (snapshot_ids snapshots) id → result ≡ marked (λ x. cond (is_in (reach snapshots id) x) others_need nothing) (snapshot_ids snapshots) }
{
    let mut slots = [NOTHING; SNAPSHOTS];
    let mut place = start;
    while place < over.len() {
        if slots[place] != NOTHING {
            return slots;
        }
        slots[place] = OTHERS_NEED;
        place = over[place];
    }
    slots
}

// A tag keeps the snapshot that it names.
pub fn tag_marks(held: usize, start: usize) -> [u8; SNAPSHOTS]
    requires { held ≤ snapshot_room }
    ensures { (ids : List ℤ) (id count : ℤ) → ascending lt_z ids ≡ true → held ≡ length ids → start ≡ place_in ids id → result ≡ marked (λ x. why_at count (place_of (id ∷ []) x)) ids }
{
    let mut slots = [NOTHING; SNAPSHOTS];
    if start < held {
        slots[start] = NAMED;
    }
    slots
}
