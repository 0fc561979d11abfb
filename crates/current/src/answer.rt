// What there is to say of a moment.
use crate::log_and_snapshots::{LogAndSnapshots, earliest, held_as};
use moment::Moment;
use records::counters::{SnapshotId, Time};
use records::snapshot::{SnapshotLogEntry, Snapshots};

// Held is by id alone: a held snapshot that was made after the entry need not be the one that was current, so it is said when it was made.
#[derive(Clone, Copy)]
pub enum Held {
    No,
    Yes,
    MadeLater(Time),
}

// A snapshot that was current, and since when.
#[derive(Clone, Copy)]
pub struct Current {
    pub id: SnapshotId,
    pub since: Time,
    pub held: Held,
}

// The snapshot of a moment; or why there is none: the earliest time that has an answer is later, the log has no entries, or it counts more than it has room for.
#[derive(Clone, Copy)]
pub enum Answer {
    Known(Current),
    BeforeAll(Time),
    NoEntries,
    TooMany,
}

pub fn of_entry(snapshots: Snapshots, entry: SnapshotLogEntry) -> Current {
    let since = entry.timestamp_ms;
    let held = match held_as(snapshots, entry.snapshot_id) {
        None => Held::No,
        Some(made) if made > since => Held::MadeLater(made),
        Some(_) => Held::Yes,
    };
    Current {
        id: entry.snapshot_id,
        since,
        held,
    }
}

pub fn of_moment(kept: LogAndSnapshots, found: Moment) -> Answer {
    if found.found {
        return Answer::Known(of_entry(kept.snapshots, found.entry));
    }
    if found.number != 0 {
        return Answer::TooMany;
    }
    match earliest(kept.log) {
        None => Answer::NoEntries,
        Some(time) => Answer::BeforeAll(time),
    }
}
