// The two conditions under which a run keeps the answers about a moment: whether metadata holds every snapshot that its history names, and whether
// a change log both removes and adds one snapshot. Nothing is refused: any metadata and any log are answered.
// The conditions are this project's own, as the crate `rules` writes them in Moment; no document asks for them.
#![tactic(auto)]

ghost use Rattle.std.specs.Prelude.{◌≡◌, cond, ◌&&◌, ◌≤◌, leb};
ghost use Rattle.records.specs.declared.counters.SnapshotId as id_records;
ghost use Rattle.records.specs.declared.update.TableUpdate as update_records;
ghost use Rattle.rules.specs.Words.{all, any};
ghost use Rattle.rules.specs.Capacities.{snapshot_log_room};
ghost use Rattle.rules.specs.WellFormed.{holds_snapshot, metadata_formed};
ghost use Rattle.rules.specs.ChangeLog.{is_addition, removed_ids, logs_addition};
ghost use Rattle.rules.specs.Moment.{is_whole, removes_and_adds};
ghost use Rattle.rules.specs.Blanks.{is_tidy_metadata};
ghost use Rattle.rules.specs.Layout.{read_snapshot_ids, read_snapshot_log, read_snapshots, read_metadata};
ghost use Rattle.rules.specs.Kinds.{read_update, read_updates};
ghost use Rattle.tables.specs.Laid.{LaidSnapshots};

use formed::update::is_tidy;
use records::capacities::{REMOVALS, UPDATES};
use records::counters::SnapshotId;
use records::metadata::TableMetadata;
use records::snapshot::{SnapshotIds, SnapshotLog, Snapshots};
use records::update::{ADD_SNAPSHOT, REMOVE_SNAPSHOTS, TableUpdate, UpdateList};
use search::is_in;
use tables::keys::snapshot_key;
use tables::snapshots::ids_of;

// ---- metadata

fn names_held(log: SnapshotLog, t: Snapshots) -> bool
    requires count_le_snapshot_log_room { log.count ≤ snapshot_log_room }
    requires laid_snapshots { LaidSnapshots t }
    ensures { result ≡ all (λ e. holds_snapshot (read_snapshots t) e.snapshot) (read_snapshot_log log) }
{
    let n = log.count;
    let held = t.count;
    let ids = ids_of(t);
    let mut ok = true;
    let mut i = 0;
    while i < n {
        let e = log.items[i];
        let k = snapshot_key(e.snapshot_id);
        ok = ok & is_in(&ids[..held], k);
        i += 1;
    }
    ok
}

// Well formed, and every snapshot that the snapshot log names is held.
pub fn is_whole(m: TableMetadata) -> bool
    ensures { result ≡ (is_tidy_metadata m && metadata_formed (read_metadata m) && is_whole (read_metadata m)) }
{
    if !formed::metadata::is_formed(m) {
        return false;
    }
    names_held(m.snapshot_log, m.snapshots)
}

// ---- a change log

// How many of so many have a slot.
fn with_slot(count: usize, slots: usize) -> usize
    ensures { result ≡ cond (leb count slots) count slots }
{
    count.min(slots)
}

// The update adds the snapshot.
fn is_addition(u: TableUpdate, id: SnapshotId) -> bool
    ensures { result ≡ is_addition id.0 (read_update u) }
{
    if u.kind == ADD_SNAPSHOT {
        return is_tidy(u) & (u.snapshots.added.snapshot_id == id);
    }
    false
}

fn any_adds(updates: &[TableUpdate], id: SnapshotId) -> bool
    ensures { result ≡ any (λ (u : update_records.TableUpdate). is_addition id.0 (read_update u)) updates.now }
{
    for u in updates {
        if is_addition(*u, id) {
            return true;
        }
    }
    false
}

fn logs_addition(changes: UpdateList, id: SnapshotId) -> bool
    ensures { result ≡ logs_addition (read_updates changes) id.0 }
{
    any_adds(&changes.items[..with_slot(changes.count, UPDATES)], id)
}

fn any_logged(changes: UpdateList, ids: &[SnapshotId]) -> bool
    ensures { result ≡ any (λ (id : id_records.SnapshotId). logs_addition (read_updates changes) id.0) ids.now }
{
    for id in ids {
        if logs_addition(changes, *id) {
            return true;
        }
    }
    false
}

// One of the ids is of a snapshot that the log adds. An id that is counted and has no slot reads as 0.
fn any_is_added(changes: UpdateList, ids: SnapshotIds) -> bool
    ensures { result ≡ any (logs_addition (read_updates changes)) (read_snapshot_ids ids) }
{
    let held = any_logged(changes, &ids.items[..with_slot(ids.count, REMOVALS)]);
    held | ((ids.count > REMOVALS) & logs_addition(changes, SnapshotId(0)))
}

// The update removes a snapshot that the log adds.
fn removes_added(changes: UpdateList, u: TableUpdate) -> bool
    ensures { result ≡ any (logs_addition (read_updates changes)) (removed_ids (read_update u)) }
{
    if u.kind == REMOVE_SNAPSHOTS {
        return is_tidy(u) & any_is_added(changes, u.snapshots.removed);
    }
    false
}

fn any_removes(changes: UpdateList, updates: &[TableUpdate]) -> bool
    ensures { result ≡ any (λ (u : update_records.TableUpdate). any (logs_addition (read_updates changes)) (removed_ids (read_update u))) updates.now }
{
    for u in updates {
        if removes_added(changes, *u) {
            return true;
        }
    }
    false
}

// A snapshot is both removed and added by the log.
pub fn removes_and_adds(changes: UpdateList) -> bool
    ensures { result ≡ removes_and_adds (read_updates changes) }
{
    any_removes(changes, &changes.items[..with_slot(changes.count, UPDATES)])
}
