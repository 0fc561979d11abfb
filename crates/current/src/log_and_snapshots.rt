// What is looked up: the snapshot log and the snapshots of metadata on standard input, with nothing after it.
use case_reader::metadata::read_metadata;
use records::capacities::{SNAPSHOT_LOG, SNAPSHOTS};
use records::counters::{SnapshotId, Time};
use records::snapshot::{SnapshotLog, Snapshots};
use slot_bounds::with_slots;
use tokens::input::Input;
use tokens::token::read_end;

#[derive(Clone, Copy)]
pub struct LogAndSnapshots {
    pub log: SnapshotLog,
    pub snapshots: Snapshots,
}

pub fn read_log_and_snapshots(input: &mut Input) -> LogAndSnapshots {
    let metadata = read_metadata(input);
    read_end(input);
    LogAndSnapshots {
        log: metadata.snapshot_log,
        snapshots: metadata.snapshots,
    }
}

// When the held snapshot of this id was made, if there is one.
pub fn held_as(snapshots: Snapshots, id: SnapshotId) -> Option<Time> {
    let n = with_slots(snapshots.count, SNAPSHOTS);
    for snapshot in &snapshots.items[..n] {
        if snapshot.snapshot_id == id {
            return Some(snapshot.timestamp_ms);
        }
    }
    None
}

// The time from which on there is an answer. The log's times can step back, so this need not be the first entry's.
pub fn earliest(log: SnapshotLog) -> Option<Time> {
    let n = with_slots(log.count, SNAPSHOT_LOG);
    log.items[..n].iter().map(|entry| entry.timestamp_ms).min()
}
