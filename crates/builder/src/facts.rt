// What is read often, kept as plain numbers: the ids of the snapshots, and the time of the last log entry.
ghost use Rattle.std.specs.Prelude.{◌≡◌, ltb};
ghost use Rattle.rules.specs.Layout.{given, read_snapshot_log};
ghost use Rattle.tables.specs.Laid.{LaidSnapshotLog};
ghost use Rattle.builder.specs.Pieces.{is_above, last_time};

use records::capacities::SNAPSHOT_LOG;
use records::counters::Time;
use records::snapshot::SnapshotLog;
pub use tables::snapshots::ids_of;

// The id is above every one of an ascending list.
pub fn is_last(ids: &[i64], id: i64) -> bool
    ensures { result ≡ is_above ids.now id }
{
    match ids.last() {
        Some(last) => *last < id,
        None => true,
    }
}

// When the last entry was made; the other time where there is none.
pub fn last_time(log: SnapshotLog, other: Time) -> Time
    ensures { LaidSnapshotLog log → given (ltb 0 log.count) result.0 ≡ last_time (read_snapshot_log log) }
{
    if (log.count == 0) | (log.count > SNAPSHOT_LOG) {
        return other;
    }
    log.items[log.count - 1].timestamp_ms
}
