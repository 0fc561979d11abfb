// Refs: named branches and tags, each to a snapshot, with what it keeps.
ghost use Rattle.std.specs.Prelude.{◌≡◌};
ghost use Rattle.records.specs.Blanks.{no_reference, no_ref, no_refs};

use crate::capacities::REFS;
use crate::counters::{Age, MinSnapshots, SnapshotId};
use crate::text::Name;

// The kind is 1 for a branch and 2 for a tag. A number behind a flag that is not set is 0.
#[derive(Clone, Copy, PartialEq, Eq)]
pub struct SnapshotReference {
    pub snapshot_id: SnapshotId,
    pub kind: u8,
    pub has_min: bool,
    pub min_snapshots_to_keep: MinSnapshots,
    pub has_age: bool,
    pub max_snapshot_age_ms: Age,
    pub has_ref_age: bool,
    pub max_ref_age_ms: Age,
}

// The owner is the office that made the ref, 1 or 2.
#[derive(Clone, Copy, PartialEq, Eq)]
pub struct NamedRef {
    pub name: Name,
    pub reference: SnapshotReference,
    pub owner: u8,
}

// Ascending by name.
#[derive(Clone, Copy, PartialEq, Eq)]
pub struct Refs {
    pub items: [NamedRef; REFS],
    pub count: usize,
}

impl SnapshotReference {
    pub fn blank() -> SnapshotReference
        ensures { result ≡ no_reference }
    {
        SnapshotReference {
            snapshot_id: SnapshotId(0),
            kind: 0,
            has_min: false,
            min_snapshots_to_keep: MinSnapshots(0),
            has_age: false,
            max_snapshot_age_ms: Age(0),
            has_ref_age: false,
            max_ref_age_ms: Age(0),
        }
    }
}

impl NamedRef {
    pub fn blank() -> NamedRef
        ensures { result ≡ no_ref }
    {
        let name = Name::blank();
        let reference = SnapshotReference::blank();
        NamedRef {
            name,
            reference,
            owner: 0,
        }
    }
}

impl Refs {
    pub fn blank() -> Refs
        ensures { result ≡ no_refs }
    {
        let none = NamedRef::blank();
        let items = [none; REFS];
        Refs { items, count: 0 }
    }
}
