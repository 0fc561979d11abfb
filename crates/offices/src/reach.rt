// What the refs of the other office reach by parents, among snapshots whose ids and parents are lent in table order.
ghost use Rattle.std.specs.Prelude.{◌≡◌, true, ◌≤◌, length};
ghost use Rattle.std.specs.Int.Signed.{lt_z};
ghost use Rattle.rules.specs.Words.{any, ascending, is_in};
ghost use Rattle.rules.specs.Capacities.{snapshot_room};
ghost use Rattle.rules.specs.Layout.{read_snapshot_ids, read_ref, read_refs};
ghost use Rattle.tables.specs.Laid.{LaidSnapshotIds, LaidRefs};
ghost use Rattle.offices.specs.Reach.{reach_of, ref_reaches};

use records::capacities::SNAPSHOTS;
use records::counters::SnapshotId;
use records::reference::{NamedRef, Refs};
use records::snapshot::SnapshotIds;
use search::{Key, is_in, position_ascending};
use tables::ids::has_snapshot;

// The walk from a snapshot meets one of those that are removed. It ends where a parent is not held, or is listed already.
fn reach_meets(ids: &[i64], parents: &[i64], start: i64, removed: SnapshotIds) -> bool
    requires order { ascending lt_z ids.now ≡ true }
    requires room { length ids.now ≤ snapshot_room }
    requires pairs { length ids.now ≡ length parents.now }
    requires removed { LaidSnapshotIds removed }
    ensures { result ≡ any (is_in (read_snapshot_ids removed)) (reach_of ids.now parents.now start) }
{
    let mut path = [0i64; SNAPSHOTS];
    let mut n: usize = 0;
    let mut met = false;
    let mut id = start;
    let mut place = position_ascending(ids, id);
    while place < ids.len() {
        if is_in(&path[..n], Key(id)) {
            return met;
        }
        met = met | has_snapshot(removed, SnapshotId(id));
        path[n] = id;
        n += 1;
        id = parents[place];
        place = position_ascending(ids, id);
    }
    met
}

// A ref of this office asks for nothing.
fn ref_reaches(office: u8, x: NamedRef, ids: &[i64], parents: &[i64], removed: SnapshotIds) -> bool
    requires order { ascending lt_z ids.now ≡ true }
    requires room { length ids.now ≤ snapshot_room }
    requires pairs { length ids.now ≡ length parents.now }
    requires removed { LaidSnapshotIds removed }
    ensures { result ≡ ref_reaches office ids.now parents.now (read_snapshot_ids removed) (read_ref x) }
{
    x.owner != office && reach_meets(ids, parents, x.reference.snapshot_id.0, removed)
}

// One walk for each ref of the other office.
pub fn refs_reach(
    office: u8,
    refs: Refs,
    ids: &[i64],
    parents: &[i64],
    removed: SnapshotIds,
) -> bool
    requires laid_refs { LaidRefs refs }
    requires order { ascending lt_z ids.now ≡ true }
    requires room { length ids.now ≤ snapshot_room }
    requires pairs { length ids.now ≡ length parents.now }
    requires removed { LaidSnapshotIds removed }
    ensures { result ≡ any (ref_reaches office ids.now parents.now (read_snapshot_ids removed)) (read_refs refs) }
{
    for held in &refs.items[..refs.count] {
        if ref_reaches(office, *held, ids, parents, removed) {
            return true;
        }
    }
    false
}
