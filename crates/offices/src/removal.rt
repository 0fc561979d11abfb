// Whether a removal takes a snapshot that has to stay for the other office.
ghost use Rattle.std.specs.Prelude.{◌≡◌, true};
ghost use Rattle.std.specs.Int.Signed.{lt_z};
ghost use Rattle.rules.specs.Words.{any, ascending};
ghost use Rattle.rules.specs.Register as plain;
ghost use Rattle.rules.specs.WellFormed.{snapshot_below};
ghost use Rattle.rules.specs.SnapshotUpdates.{held_snapshots};
ghost use Rattle.rules.specs.Others.{is_needed};
ghost use Rattle.rules.specs.Layout.{read_snapshots, read_snapshot_ids, read_snapshot_log};
ghost use Rattle.tables.specs.Laid.{LaidRefs, LaidSnapshots, LaidSnapshotIds, LaidSnapshotLog};
ghost use Rattle.offices.specs.Reach.{entry_names};
ghost use Rattle.offices.specs.Shown.{Shown};

use crate::reach::refs_reach;
use records::reference::Refs;
use records::run::SECOND_OFFICE;
use records::snapshot::{SnapshotIds, SnapshotLog, Snapshots};
use tables::ids::{has_snapshot, is_held};
use tables::snapshots::{ids_of, parents_of};

// The log names a snapshot that is removed and held.
fn log_names(log: SnapshotLog, ids: &[i64], removed: SnapshotIds) -> bool
    requires laid_snapshot_log { LaidSnapshotLog log }
    requires ids_value { ascending lt_z ids.now ≡ true }
    requires laid_snapshot_ids { LaidSnapshotIds removed }
    ensures { result ≡ any (entry_names ids.now (read_snapshot_ids removed)) (read_snapshot_log log) }
{
    for entry in &log.items[..log.count] {
        if has_snapshot(removed, entry.snapshot_id) & is_held(ids, entry.snapshot_id) {
            return true;
        }
    }
    false
}

// Of a held snapshot that is removed: a ref of the other office names it or reaches it; of the second office's removal also: the snapshot log names it.
pub fn removes_needed(
    office: u8,
    refs: Refs,
    snapshots: Snapshots,
    log: SnapshotLog,
    removed: SnapshotIds,
) -> bool
    requires laid_refs { LaidRefs refs }
    requires laid_snapshots { LaidSnapshots snapshots }
    requires snapshots_value { ascending snapshot_below (read_snapshots snapshots) ≡ true }
    requires laid_snapshot_log { LaidSnapshotLog log }
    requires laid_snapshot_ids { LaidSnapshotIds removed }
    ensures { (m : plain.Metadata) → Shown m refs snapshots log → result ≡ any (is_needed office m) (held_snapshots (read_snapshot_ids removed) m.snapshots) }
{
    let held = snapshots.count;
    let ids = ids_of(snapshots);
    let parents = parents_of(snapshots);
    let reached = refs_reach(office, refs, &ids[..held], &parents[..held], removed);
    if office == SECOND_OFFICE {
        return reached | log_names(log, &ids[..held], removed);
    }
    reached
}
