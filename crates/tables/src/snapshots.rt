// The table of snapshots.
ghost use Rattle.std.specs.Prelude.{◌≡◌, ◌≤◌, ◌<◌, true, false, ◌∷◌, ◌++◌, map, pos, take, drop};
ghost use Rattle.rules.specs.Words.{put as putBy, ascending};
ghost use Rattle.rules.specs.Capacities.{snapshot_room};
ghost use Rattle.rules.specs.Register as plain;
ghost use Rattle.rules.specs.WellFormed.{snapshot_below, holds_snapshot};
ghost use Rattle.rules.specs.Walk.{snapshot_parents};
ghost use Rattle.rules.specs.SnapshotUpdates.{held_snapshots, other_snapshots};
ghost use Rattle.rules.specs.Layout.{pad, read_snapshot, laid_snapshot, read_snapshots, laid_snapshots, read_snapshot_ids, laid_snapshot_ids};
ghost use Rattle.tables.specs.Laid.{LaidSnapshots, LaidSnapshotIds};

use crate::ids::{has_snapshot, push_snapshot};
use crate::keys::{parent_key, snapshot_key};
use crate::runs::{insert, keep_into, keys_of, place_of};
use records::capacities::SNAPSHOTS;
use records::snapshot::{Snapshot, SnapshotIds, Snapshots};

// The ids, in table order, and zeros after them. Of a table that is not laid out it gives some numbers or other.
pub fn ids_of(t: Snapshots) -> [i64; SNAPSHOTS]
    ensures { LaidSnapshots t → result ≡ pad snapshot_room (pos 0) (map (λ (s : plain.Snapshot). s.id) (read_snapshots t)) }
{
    keys_of(&t.items[..t.count.min(SNAPSHOTS)])
}

// The ids of the parents, in table order, -1 where there is none, and zeros after them. Of a table that is not laid out, as above.
pub fn parents_of(t: Snapshots) -> [i64; SNAPSHOTS]
    ensures { LaidSnapshots t → result ≡ pad snapshot_room (pos 0) (snapshot_parents (read_snapshots t)) }
{
    let mut parents = [0i64; SNAPSHOTS];
    for (i, s) in t.items[..t.count.min(SNAPSHOTS)].iter().enumerate() {
        parents[i] = parent_key(*s).0;
    }
    parents
}

pub fn put(t: Snapshots, s: Snapshot) -> Snapshots
    requires laid_snapshots { LaidSnapshots t }
    requires s_value { laid_snapshot (read_snapshot s) ≡ s }
    requires count_bound { t.count < 64 }
    requires snapshot_id_value { holds_snapshot (read_snapshots t) s.snapshot_id.0 ≡ false }
    ensures { result ≡ laid_snapshots (putBy snapshot_below (read_snapshot s) (read_snapshots t)) }
{
    let at = place_of(&t.items[..t.count], snapshot_key(s.snapshot_id));
    let mut longer = t;
    insert(&mut longer.items, t.count, at, s);
    longer.count += 1;
    longer
}

// The snapshots whose ids are not in the list.
pub fn without(t: Snapshots, ids: SnapshotIds) -> Snapshots
    requires laid_snapshots { LaidSnapshots t }
    requires laid_snapshot_ids { LaidSnapshotIds ids }
    ensures { result ≡ laid_snapshots (other_snapshots (read_snapshot_ids ids) (read_snapshots t)) }
{
    let mut rest = Snapshots::blank();
    rest.count = keep_into(&t.items[..t.count], &mut rest.items, |s| {
        !has_snapshot(ids, s.snapshot_id)
    });
    rest
}

// The held ids of the list, in table order.
pub fn held(t: Snapshots, ids: SnapshotIds) -> SnapshotIds
    requires laid_snapshots { LaidSnapshots t }
    requires laid_snapshot_ids { LaidSnapshotIds ids }
    requires t_value { ascending snapshot_below (read_snapshots t) ≡ true }
    ensures { result ≡ laid_snapshot_ids (held_snapshots (read_snapshot_ids ids) (read_snapshots t)) }
{
    let mut held = SnapshotIds::blank();
    for s in &t.items[..t.count] {
        if has_snapshot(ids, s.snapshot_id) {
            held = push_snapshot(held, s.snapshot_id);
        }
    }
    held
}
