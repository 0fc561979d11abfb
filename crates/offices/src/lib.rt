// Two offices share a register: whether an update of a list is this office's to make, and what the close of the second is told.
// Nothing is refused here: the run refuses with 35, or with 3 where what the update offers is not well formed.
// Document 02 decides, request (xi), as the crate `rules` writes it in Others.
#![tactic(auto)]

mod reach;
mod removal;

ghost use Rattle.std.specs.Prelude.{◌≡◌, true, cond, ◌&&◌, ◌||◌};
ghost use Rattle.rules.specs.Words.{some_with, any, ascending};
ghost use Rattle.rules.specs.Replies.{update_not_formed, others_to_change};
ghost use Rattle.rules.specs.Names.{is_main};
ghost use Rattle.rules.specs.Register as plain;
ghost use Rattle.rules.specs.WellFormed.{snapshot_below, update_formed};
ghost use Rattle.rules.specs.RefUpdates.{ref_named};
ghost use Rattle.rules.specs.Others.{is_second, is_others_ref, is_others};
ghost use Rattle.rules.specs.Layout.{read_name, read_snapshots, read_refs};
ghost use Rattle.rules.specs.Kinds.{read_update};
ghost use Rattle.tables.specs.Laid.{LaidName, LaidRefs, LaidSnapshots, LaidSnapshotLog};
ghost use Rattle.offices.specs.Kept.{is_kept};
ghost use Rattle.offices.specs.Shown.{Shown};
ghost use Rattle.offices.specs.Used.{Used};

use crate::removal::removes_needed;
use records::capacities::REFS;
use records::reference::Refs;
use records::replies::{OTHERS_TO_CHANGE, UPDATE_NOT_FORMED};
use records::run::SECOND_OFFICE;
use records::snapshot::{SnapshotLog, Snapshots};
use records::text::Name;
use records::update::{
    ADD_PARTITION_SPEC, ADD_SCHEMA, ASSIGN_UUID, REMOVE_PARTITION_SPECS, REMOVE_REF,
    REMOVE_SNAPSHOTS, SET_BRANCH_SNAPSHOT, SET_DEFAULT_SORT_ORDER, SET_LOCATION, SET_REF,
    TableUpdate,
};
use tables::names::is_main_name;
use tables::refs::find;

// Whether any update can be the other office's: not where the first office has every ref. A run changes no ref of the other, so that it is asked once.
pub fn is_shared(office: u8, refs: Refs) -> bool
    ensures { LaidRefs refs → result ≡ (is_second office || any (is_others_ref office) (read_refs refs)) }
{
    if office == SECOND_OFFICE {
        return true;
    }
    for held in &refs.items[..refs.count.min(REFS)] {
        if held.owner != office {
            return true;
        }
    }
    false
}

// The updates that are kept for the first office: of uuid, version, location, schemas, sort orders and partition specs.
fn is_kept(kind: u8) -> bool
    ensures { result ≡ is_kept kind }
{
    ((ASSIGN_UUID <= kind) & (kind <= SET_LOCATION))
        | ((ADD_SCHEMA <= kind) & (kind <= SET_DEFAULT_SORT_ORDER))
        | ((ADD_PARTITION_SPEC <= kind) & (kind <= REMOVE_PARTITION_SPECS))
}

// The name of the other office's ref. `main` is the first's also where it is not held.
fn names_others(office: u8, name: Name, refs: Refs) -> bool
    requires laid_name { LaidName name }
    requires laid_refs { LaidRefs refs }
    ensures { result ≡ ((is_second office && is_main (read_name name)) || some_with (is_others_ref office) (ref_named (read_name name) (read_refs refs))) }
{
    let n = refs.count;
    let kept = (office == SECOND_OFFICE) & is_main_name(name);
    let at = find(refs, name);
    if at < n {
        return kept | (refs.items[at].owner != office);
    }
    kept
}

// The tables are those of the moment.
pub fn is_others(
    office: u8,
    refs: Refs,
    snapshots: Snapshots,
    log: SnapshotLog,
    update: TableUpdate,
) -> bool
    requires laid_refs { LaidRefs refs }
    requires laid_snapshots { LaidSnapshots snapshots }
    requires snapshots_value { ascending snapshot_below (read_snapshots snapshots) ≡ true }
    requires laid_snapshot_log { LaidSnapshotLog log }
    requires update_value { update_formed (read_update update) ≡ true }
    requires used { Used update }
    ensures { (m : plain.Metadata) → Shown m refs snapshots log → result ≡ is_others office (read_update update) m }
{
    let kind = update.kind;
    if (kind == SET_BRANCH_SNAPSHOT) | (kind == SET_REF) | (kind == REMOVE_REF) {
        return names_others(office, update.refs.name, refs);
    }
    if kind == REMOVE_SNAPSHOTS {
        return removes_needed(office, refs, snapshots, log, update.snapshots.removed);
    }
    is_kept(kind) & (office == SECOND_OFFICE)
}

// What an update of the other office's is refused with: 3 comes first.
pub fn others_number(fits: bool) -> u8
    ensures { result ≡ cond fits others_to_change update_not_formed }
{
    if fits {
        OTHERS_TO_CHANGE
    } else {
        UPDATE_NOT_FORMED
    }
}

// How many of something in its change log a run's close is told: none of the second office's, whose close leaves the snapshot log as it is.
pub fn closing(office: u8, count: usize) -> usize
    ensures { result ≡ cond (is_second office) 0 count }
{
    if office == SECOND_OFFICE { 0 } else { count }
}
