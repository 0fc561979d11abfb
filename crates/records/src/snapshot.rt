// Snapshots, their table, and the log of which was current when.
ghost use Rattle.std.specs.Prelude.{◌≡◌};
ghost use Rattle.records.specs.Blanks.{no_snapshot, no_snapshots, no_snapshot_ids, no_log_entry, no_snapshot_log};

use crate::capacities::{REMOVALS, SNAPSHOT_LOG, SNAPSHOTS};
use crate::counters::{RowId, SequenceNumber, SnapshotId, Time};

// A parent behind a flag that is not set, and a row range behind one, are 0.
#[derive(Clone, Copy, PartialEq, Eq)]
pub struct Snapshot {
    pub snapshot_id: SnapshotId,
    pub has_parent: bool,
    pub parent_snapshot_id: SnapshotId,
    pub sequence_number: SequenceNumber,
    pub timestamp_ms: Time,
    pub has_rows: bool,
    pub first_row_id: RowId,
    pub added_rows: u64,
}

// Ascending by id.
#[derive(Clone, Copy, PartialEq, Eq)]
pub struct Snapshots {
    pub items: [Snapshot; SNAPSHOTS],
    pub count: usize,
}

// The ids of a removal.
#[derive(Clone, Copy, PartialEq, Eq)]
pub struct SnapshotIds {
    pub items: [SnapshotId; REMOVALS],
    pub count: usize,
}

#[derive(Clone, Copy, PartialEq, Eq)]
pub struct SnapshotLogEntry {
    pub snapshot_id: SnapshotId,
    pub timestamp_ms: Time,
}

// In history order.
#[derive(Clone, Copy, PartialEq, Eq)]
pub struct SnapshotLog {
    pub items: [SnapshotLogEntry; SNAPSHOT_LOG],
    pub count: usize,
}

impl Snapshot {
    pub fn blank() -> Snapshot
        ensures { result ≡ no_snapshot }
    {
        Snapshot {
            snapshot_id: SnapshotId(0),
            has_parent: false,
            parent_snapshot_id: SnapshotId(0),
            sequence_number: SequenceNumber(0),
            timestamp_ms: Time(0),
            has_rows: false,
            first_row_id: RowId(0),
            added_rows: 0,
        }
    }
}

impl Snapshots {
    pub fn blank() -> Snapshots
        ensures { result ≡ no_snapshots }
    {
        let none = Snapshot::blank();
        let items = [none; SNAPSHOTS];
        Snapshots { items, count: 0 }
    }
}

impl SnapshotIds {
    pub fn blank() -> SnapshotIds
        ensures { result ≡ no_snapshot_ids }
    {
        let none = SnapshotId(0);
        let items = [none; REMOVALS];
        SnapshotIds { items, count: 0 }
    }
}

impl SnapshotLogEntry {
    pub fn blank() -> SnapshotLogEntry
        ensures { result ≡ no_log_entry }
    {
        SnapshotLogEntry {
            snapshot_id: SnapshotId(0),
            timestamp_ms: Time(0),
        }
    }
}

impl SnapshotLog {
    pub fn blank() -> SnapshotLog
        ensures { result ≡ no_snapshot_log }
    {
        let none = SnapshotLogEntry::blank();
        let items = [none; SNAPSHOT_LOG];
        SnapshotLog { items, count: 0 }
    }
}
