// Which snapshot was current at a time: the last entry of the snapshot log whose time is at most the given one, and how many entries a reading from the end reads for it.
// And which were current during a span of time: the answer at its first millisecond, and then each later one.
// Refuses a log that counts above its slots with 1; what stands in the slots past the count is not looked at.
// Document 02, request (i), decides, as the crate `rules` writes it in Moment; During is made of it.
#![tactic(auto)]

ghost use Rattle.std.specs.Prelude.{◌≡◌, ◌+◌, ◌≤◌, ◌<◌, ◌&&◌, drop};
ghost use Rattle.std.specs.Int.Signed.{le_z};
ghost use Rattle.rules.specs.Capacities.{snapshot_log_room};
ghost use Rattle.rules.specs.During.{answered_within, answers_itself, is_within};
ghost use Rattle.rules.specs.Layout.{laid_snapshot_log, read_snapshot_log};
ghost use Rattle.moment.specs.Answers.{during_of, moment_of, no_entry};
ghost use Rattle.moment.specs.Reading.{Read, entry_at};

use records::capacities::SNAPSHOT_LOG;
use records::counters::Time;
use records::replies::{ACCEPTED, START_NOT_FORMED};
use records::snapshot::{SnapshotLog, SnapshotLogEntry};

// The number is 0 or 1; the entry is blank where none is found.
#[derive(Clone, Copy)]
pub struct Moment {
    pub number: u8,
    pub found: bool,
    pub entry: SnapshotLogEntry,
    pub read: usize,
}

fn is_by(entry: Time, time: Time) -> bool
    ensures { result ≡ le_z entry.0 time.0 }
{
    let x = entry.0;
    let y = time.0;
    x <= y
}

// The place behind the last entry that is by the time; 0 where none is. Reads from the end, since the log's times can step back, and
// stops at the first hit: the entries from `end` on are too late, and the one in front of `hit`, if there is one, is by the time.
fn behind_last(log: SnapshotLog, time: Time) -> usize
    requires { log.count ≤ snapshot_log_room }
    ensures { Read time.0 (read_snapshot_log log) result result }
{
    let mut hit = 0;
    let mut end = log.count;
    while hit < end {
        let at = end - 1;
        let e = log.items[at];
        let t = e.timestamp_ms;
        if is_by(t, time) {
            hit = at + 1;
        } else {
            end = at;
        }
    }
    hit
}

fn no_entry(number: u8, read: usize) -> Moment
    ensures { result ≡ no_entry number read }
{
    let entry = SnapshotLogEntry::blank();
    Moment {
        number,
        found: false,
        entry,
        read,
    }
}

// The entries from the hit on were read, or all of them where there is none.
pub fn current_at(log: SnapshotLog, time: Time) -> Moment
    ensures { result ≡ moment_of log time }
{
    let n = log.count;
    if n > SNAPSHOT_LOG {
        return no_entry(START_NOT_FORMED, 0);
    }
    let k = behind_last(log, time);
    if k == 0 {
        return no_entry(ACCEPTED, n);
    }
    let at = k - 1;
    let entry = log.items[at];
    Moment {
        number: ACCEPTED,
        found: true,
        entry,
        read: n - at,
    }
}

// The first answer is `current_at`'s; the later entries are blank after the counted ones, and none where the log is refused.
#[derive(Clone, Copy)]
pub struct During {
    pub beginning: Moment,
    pub later: SnapshotLog,
}

// Whether the entry at a place is within the span, after its first millisecond, and is the answer at its own time.
fn answers_within(log: SnapshotLog, at: usize, first: Time, last: Time) -> bool
    requires { (at < log.count) × (log.count ≤ snapshot_log_room) }
    ensures { result ≡ is_within first.0 last.0 (entry_at (read_snapshot_log log) at) && answers_itself (entry_at (read_snapshot_log log) at) (drop (at + 1) (read_snapshot_log log)) }
{
    let e = log.items[at];
    let t = e.timestamp_ms;
    if is_by(t, first) {
        return false;
    }
    if !is_by(t, last) {
        return false;
    }
    behind_last(log, t) == at + 1
}

fn answered_within(log: SnapshotLog, first: Time, last: Time) -> SnapshotLog
    requires { log.count ≤ snapshot_log_room }
    ensures { result ≡ laid_snapshot_log (answered_within first.0 last.0 (read_snapshot_log log)) }
{
    let n = log.count;
    let mut r = SnapshotLog::blank();
    let mut i = 0;
    while i < n {
        let at = i;
        i += 1;
        if answers_within(log, at, first, last) {
            let e = log.items[at];
            let k = r.count;
            r.items[k] = e;
            r.count = k + 1;
        }
    }
    r
}

pub fn current_during(log: SnapshotLog, first: Time, last: Time) -> During
    ensures { result ≡ during_of log first last }
{
    let count = log.count;
    let beginning = current_at(log, first);
    if count > SNAPSHOT_LOG {
        let later = SnapshotLog::blank();
        return During { beginning, later };
    }
    let later = answered_within(log, first, last);
    During { beginning, later }
}
