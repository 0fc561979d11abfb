// The snapshot log at the close. The change log is known by three facts: the ids that it adds, the snapshots to which it
// sets `main`, and whether it removes snapshots.
ghost use Rattle.std.specs.Prelude.{◌≡◌, ◌≤◌, true, cond, not, List, drop};
ghost use Rattle.std.specs.Int.Signed.{lt_z};
ghost use Rattle.rules.specs.Words.{ascending, eq_z, some_with, is_in, is_empty, keep, after_last};
ghost use Rattle.rules.specs.Register.{Update, Metadata};
ghost use Rattle.rules.specs.Layout.{read_fields, read_log_entry, read_snapshot_log, laid_snapshot_log};
ghost use Rattle.tables.specs.Laid.{LaidSnapshotLog};
ghost use Rattle.close.specs.Facts.{is_superseded, intermediates_of, is_gone, is_staying, Told};
ghost use Rattle.close.specs.Answers.{HistoryOf};

use records::counters::SnapshotId;
use records::metadata::SingleFields;
use records::snapshot::{SnapshotLog, SnapshotLogEntry};
use tables::ids::is_held;
use tables::runs::keep_into;

// The history, and whether it was rebuilt.
#[derive(Clone, Copy)]
pub struct History {
    pub rebuilt: bool,
    pub log: SnapshotLog,
}

fn is_among(ids: &[i64], id: SnapshotId) -> bool
    ensures { result ≡ is_in ids.now id.0 }
{
    ids.contains(&id.0)
}

fn is_current(f: SingleFields, id: SnapshotId) -> bool
    ensures { result ≡ some_with (eq_z id.0) (read_fields f).current }
{
    f.has_current && id == f.current_snapshot_id
}

// Added in this run, and not current.
fn is_superseded(f: SingleFields, added: &[i64], id: SnapshotId) -> bool
    ensures { result ≡ is_superseded added.now (read_fields f).current id.0 }
{
    is_among(added, id) && !is_current(f, id)
}

fn has_intermediates(f: SingleFields, added: &[i64], mains: &[i64]) -> bool
    ensures { result ≡ not (is_empty (intermediates_of added.now mains.now (read_fields f).current)) }
{
    for id in mains {
        if is_superseded(f, added, SnapshotId(*id)) {
            return true;
        }
    }
    false
}

// How many entries stand up to the last whose snapshot is missing.
fn after_last_missing(log: SnapshotLog, ids: &[i64]) -> usize
    requires laid_snapshot_log { LaidSnapshotLog log }
    requires ids_value { ascending lt_z ids.now ≡ true }
    ensures within { result ≤ log.count }
    ensures after { drop result (read_snapshot_log log) ≡ after_last (is_gone ids.now) (read_snapshot_log log) }
{
    for i in (0..log.count).rev() {
        if !is_held(ids, log.items[i].snapshot_id) {
            return i + 1;
        }
    }
    0
}

fn is_intermediate(f: SingleFields, added: &[i64], mains: &[i64], id: SnapshotId) -> bool
    ensures { result ≡ is_in (intermediates_of added.now mains.now (read_fields f).current) id.0 }
{
    is_among(mains, id) && is_superseded(f, added, id)
}

// An entry stays if its snapshot is held and not intermediate.
fn is_staying(
    ids: &[i64],
    f: SingleFields,
    added: &[i64],
    mains: &[i64],
    e: SnapshotLogEntry,
) -> bool
    requires { ascending lt_z ids.now ≡ true }
    ensures { result ≡ is_staying ids.now added.now mains.now (read_fields f).current (read_log_entry e) }
{
    is_held(ids, e.snapshot_id) && !is_intermediate(f, added, mains, e.snapshot_id)
}

// The entries from a place on that stay.
fn kept_from(
    log: SnapshotLog,
    from: usize,
    ids: &[i64],
    f: SingleFields,
    added: &[i64],
    mains: &[i64],
) -> SnapshotLog
    requires laid_snapshot_log { LaidSnapshotLog log }
    requires from_le_count { from ≤ log.count }
    requires ids_value { ascending lt_z ids.now ≡ true }
    ensures { result ≡ laid_snapshot_log (keep (is_staying ids.now added.now mains.now (read_fields f).current) (drop from (read_snapshot_log log))) }
{
    let mut kept = SnapshotLog::blank();
    kept.count = keep_into(&log.items[from..log.count], &mut kept.items, |entry| {
        is_staying(ids, f, added, mains, *entry)
    });
    kept
}

// The place of the first entry that may stay when the log is rebuilt: with a removal the one after the last missing snapshot's, else 0.
fn first_kept(log: SnapshotLog, ids: &[i64], removal: bool) -> usize
    requires laid_snapshot_log { LaidSnapshotLog log }
    requires ids_value { ascending lt_z ids.now ≡ true }
    ensures within { result ≤ log.count }
    ensures after { drop result (read_snapshot_log log) ≡ cond removal (after_last (is_gone ids.now) (read_snapshot_log log)) (read_snapshot_log log) }
{
    if removal {
        return after_last_missing(log, ids);
    }
    0
}

pub fn close_log(
    log: SnapshotLog,
    ids: &[i64],
    f: SingleFields,
    added: &[i64],
    mains: &[i64],
    removal: bool,
) -> History
    requires laid_snapshot_log { LaidSnapshotLog log }
    requires ids_value { ascending lt_z ids.now ≡ true }
    ensures history { (l : List Update) (p : Metadata) → Told l p log ids.now f added.now mains.now removal → HistoryOf l p result }
    ensures laid { LaidSnapshotLog result.log }
{
    if removal || has_intermediates(f, added, mains) {
        let from = first_kept(log, ids, removal);
        let kept = kept_from(log, from, ids, f, added, mains);
        return History {
            rebuilt: true,
            log: kept,
        };
    }
    History {
        rebuilt: false,
        log,
    }
}
