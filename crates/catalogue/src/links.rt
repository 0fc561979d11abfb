// The links from snapshots to their parents, gathered out of records into two arrays of numbers, and the walk over them.
ghost use Rattle.std.specs.Prelude.{◌≡◌, length, map};
ghost use Rattle.rules.specs.Layout.{given, read_snapshot};
ghost use Rattle.rules.specs.Walk.{walk_buffer};
ghost use Rattle.walk.specs.Answers.{walked};
ghost use Rattle.catalogue.specs.Links.{no_links, parent_number, link, gathered, link_ancestors};

use records::capacities::SNAPSHOTS;
use records::replies::LISTS_NOT_FORMED;
use records::snapshot::Snapshot;
use walk::Walked;

const NO_PARENT: i64 = -1;

// A count above 64 says that there were more records than that.
#[derive(Clone, Copy)]
pub struct Links {
    pub ids: [i64; SNAPSHOTS],
    pub parents: [i64; SNAPSHOTS],
    pub count: usize,
}

#[tactic(auto, unfolding(crate::specs::Links::no_links))]
pub fn none() -> Links
    ensures { result ≡ no_links }
{
    Links {
        ids: [0; SNAPSHOTS],
        parents: [0; SNAPSHOTS],
        count: 0,
    }
}

// A parent behind a flag that is not set counts as none.
fn parent_number(snapshot: Snapshot) -> i64
    ensures { result ≡ parent_number (read_snapshot snapshot) }
{
    if snapshot.has_parent {
        snapshot.parent_snapshot_id.0
    } else {
        NO_PARENT
    }
}

// One record more.
pub fn add(mut links: Links, snapshot: Snapshot) -> Links
    ensures { result ≡ link links (read_snapshot snapshot) }
{
    if links.count < SNAPSHOTS {
        links.ids[links.count] = snapshot.snapshot_id.0;
        links.parents[links.count] = parent_number(snapshot);
        links.count += 1;
    } else {
        links.count = SNAPSHOTS + 1;
    }
    links
}

pub fn gather(snapshots: &[Snapshot]) -> Links
    ensures { result ≡ gathered (map read_snapshot snapshots.now) }
{
    let mut links = none();
    for snapshot in snapshots {
        links = add(links, *snapshot);
    }
    links
}

#[tactic(auto, unfolding(walk::specs::Answers::walked))]
pub fn link_ancestors(
    links: Links,
    start: i64,
    has_excluded: bool,
    excluded: i64,
    out: &mut [i64],
) -> Walked
    ensures answer { result ≡ walked (length out.old) (link_ancestors links start (given has_excluded excluded)) }
    ensures buffer { out.new ≡ walk_buffer out.old (link_ancestors links start (given has_excluded excluded)) }
{
    let count = links.count;
    if count > SNAPSHOTS {
        return Walked {
            number: LISTS_NOT_FORMED,
            count: 0,
        };
    }
    walk::ancestors(
        &links.ids[..count],
        &links.parents[..count],
        start,
        has_excluded,
        excluded,
        out,
    )
}
