// The list: a removal for each ref that goes, then removals of the snapshots that go.
ghost use Rattle.std.specs.Prelude.{◌≡◌, List, ◌+◌, ◌*◌, ◌≤◌, ◌<◌, ℤ, take, drop, replicate};
ghost use Rattle.records.specs.Blanks.{no_update};
ghost use Rattle.rules.specs.Capacities.{snapshot_room, removal_room, list_room};
ghost use Rattle.rules.specs.Register.Update.{RemoveSnapshots, RemoveRef};
ghost use Rattle.rules.specs.Walk.{snapshot_ids};
ghost use Rattle.rules.specs.Layout.{read_name, read_refs, laid_refs, read_snapshots, laid_snapshots, laid_snapshot_ids};
ghost use Rattle.rules.specs.Kinds.{laid_update, laid_updates};
ghost use Rattle.tables.specs.Laid.{LaidName, LaidRefs, LaidSnapshots};
ghost use Rattle.expiry.specs.List.{refs_going, snapshots_going, list_of, update_at};

use crate::policy::{NOTHING, Reason, Reasons};
use records::capacities::{REFS, REMOVALS, SNAPSHOTS, UPDATES};
use records::reference::Refs;
use records::snapshot::{SnapshotIds, Snapshots};
use records::text::Name;
use records::update::{REMOVE_REF, REMOVE_SNAPSHOTS, TableUpdate, UpdateList};
use tables::ids::push_snapshot;

// The refs that go.
fn dropped(t: Refs, goes: [bool; REFS]) -> Refs
    requires { LaidRefs t }
    ensures { result ≡ laid_refs (refs_going goes (read_refs t)) }
{
    let mut gone = Refs::blank();
    for (i, r) in t.items[..t.count].iter().enumerate() {
        if goes[i] {
            gone.items[gone.count] = *r;
            gone.count += 1;
        }
    }
    gone
}

// The snapshots that go: nothing keeps them.
fn leaving(t: Snapshots, stays: [Reason; SNAPSHOTS]) -> Snapshots
    requires { LaidSnapshots t }
    ensures { result ≡ laid_snapshots (snapshots_going stays (read_snapshots t)) }
{
    let mut gone = Snapshots::blank();
    for (i, snapshot) in t.items[..t.count].iter().enumerate() {
        if stays[i].why == NOTHING {
            gone.items[gone.count] = *snapshot;
            gone.count += 1;
        }
    }
    gone
}

// The ids of sixteen snapshots from a place on, or of as many as there are.
fn part(t: Snapshots, from: usize) -> SnapshotIds
    requires { LaidSnapshots t }
    ensures { result ≡ laid_snapshot_ids (take removal_room (drop from (snapshot_ids (read_snapshots t)))) }
{
    let start = from.min(t.count);
    let end = (start + REMOVALS).min(t.count);
    let mut ids = SnapshotIds::blank();
    for snapshot in &t.items[start..end] {
        ids = push_snapshot(ids, snapshot.snapshot_id);
    }
    ids
}

fn ref_removal(name: Name) -> TableUpdate
    requires { LaidName name }
    ensures { result ≡ laid_update (RemoveRef (read_name name)) }
{
    let mut update = TableUpdate::blank();
    update.kind = REMOVE_REF;
    update.refs.name = name;
    update
}

fn snapshots_removal(ids: SnapshotIds) -> TableUpdate
    ensures { (l : List ℤ) → ids ≡ laid_snapshot_ids l → result ≡ laid_update (RemoveSnapshots l) }
{
    let mut update = TableUpdate::blank();
    update.kind = REMOVE_SNAPSHOTS;
    update.snapshots.removed = ids;
    update
}

// How many removals take so many snapshots.
fn parts(count: usize) -> usize
    requires { count ≤ snapshot_room }
    ensures { (count ≤ result * removal_room) × (result * removal_room < count + removal_room) }
{
    (count + (REMOVALS - 1)) / REMOVALS
}

// The update at a place of the list.
fn update_at(refs: Refs, snapshots: Snapshots, place: usize) -> TableUpdate
    requires laid_refs { LaidRefs refs }
    requires laid_snapshots { LaidSnapshots snapshots }
    requires place_lt_list_room { place < list_room }
    ensures { result ≡ laid_update (update_at (read_refs refs) (snapshot_ids (read_snapshots snapshots)) place) }
{
    if place < refs.count {
        return ref_removal(refs.items[place].name);
    }
    snapshots_removal(part(snapshots, (place - refs.count) * REMOVALS))
}

fn no_updates() -> [TableUpdate; UPDATES]
    ensures { result ≡ replicate list_room no_update }
{
    [TableUpdate::blank(); UPDATES]
}

// Each update is stored in its place, since a list that is handed over is copied.
pub fn list_of(refs: Refs, snapshots: Snapshots, reasons: Reasons) -> UpdateList
    requires laid_refs { LaidRefs refs }
    requires laid_snapshots { LaidSnapshots snapshots }
    ensures { result ≡ laid_updates (list_of (refs_going reasons.goes (read_refs refs)) (snapshot_ids (snapshots_going reasons.stays (read_snapshots snapshots)))) }
{
    let refs_gone = dropped(refs, reasons.goes);
    let gone = leaving(snapshots, reasons.stays);
    let count = refs_gone.count + parts(gone.count);
    let mut items = no_updates();
    for place in 0..count {
        items[place] = update_at(refs_gone, gone, place);
    }
    UpdateList { items, count }
}
