// Snapshots, the ids of a removal, and the snapshot log.
use records::capacities::{REMOVALS, SNAPSHOT_LOG, SNAPSHOTS};
use records::counters::{RowId, SequenceNumber, SnapshotId, Time};
use records::snapshot::{Snapshot, SnapshotIds, SnapshotLog, SnapshotLogEntry, Snapshots};
use tokens::field::{read_count, read_flag, read_i64, read_u64};
use tokens::input::Input;

pub fn read_snapshot(input: &mut Input) -> Snapshot {
    let snapshot_id = read_i64(input);
    let has_parent = read_flag(input);
    let parent = read_i64(input);
    let sequence_number = read_i64(input);
    let timestamp_ms = read_i64(input);
    let has_rows = read_flag(input);
    let first_row_id = read_u64(input);
    let added_rows = read_u64(input);
    Snapshot {
        snapshot_id: SnapshotId(snapshot_id),
        has_parent,
        parent_snapshot_id: SnapshotId(parent),
        sequence_number: SequenceNumber(sequence_number),
        timestamp_ms: Time(timestamp_ms),
        has_rows,
        first_row_id: RowId(first_row_id),
        added_rows,
    }
}

pub fn read_snapshots(input: &mut Input) -> Snapshots {
    let mut table = Snapshots::blank();
    let count = read_count(input);
    for i in 0..count {
        if !input.is_good() {
            break;
        }
        let snapshot = read_snapshot(input);
        if i < SNAPSHOTS {
            table.items[i] = snapshot;
        }
    }
    table.count = count;
    table
}

pub fn read_snapshot_ids(input: &mut Input) -> SnapshotIds {
    let mut ids = SnapshotIds::blank();
    let count = read_count(input);
    for i in 0..count {
        if !input.is_good() {
            break;
        }
        let id = SnapshotId(read_i64(input));
        if i < REMOVALS {
            ids.items[i] = id;
        }
    }
    ids.count = count;
    ids
}

fn read_log_entry(input: &mut Input) -> SnapshotLogEntry {
    let snapshot_id = read_i64(input);
    let timestamp_ms = read_i64(input);
    SnapshotLogEntry {
        snapshot_id: SnapshotId(snapshot_id),
        timestamp_ms: Time(timestamp_ms),
    }
}

pub fn read_snapshot_log(input: &mut Input) -> SnapshotLog {
    let mut log = SnapshotLog::blank();
    let count = read_count(input);
    for i in 0..count {
        if !input.is_good() {
            break;
        }
        let entry = read_log_entry(input);
        if i < SNAPSHOT_LOG {
            log.items[i] = entry;
        }
    }
    log.count = count;
    log
}
