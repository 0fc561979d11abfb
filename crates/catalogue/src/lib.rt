// The second entry of the ancestor walks: the catalogue's snapshot records, as one lent run or as their table.
// Refuses what the walk over their ids and parents refuses: over 64 records, equal ids or an id below 0 with 1; a snapshot met twice; a short buffer.
// Document 01 decides, as the crate `rules` writes it in Walk (record_ancestors).
#![tactic(auto)]

ghost use Rattle.std.specs.Prelude.{◌≡◌, map, ◌≤◌, length};
ghost use Rattle.rules.specs.Layout.{given, read_snapshot, read_snapshots};
ghost use Rattle.rules.specs.Walk.{record_ancestors, walk_buffer};
ghost use Rattle.walk.specs.Answers.{walked};

use links::{gather, link_ancestors};
use records::capacities::SNAPSHOTS;
use records::replies::LISTS_NOT_FORMED;
use records::snapshot::{Snapshot, Snapshots};
use walk::Walked;

mod links;

// Of a record only the id, the parent and the parent's flag are looked at.
pub fn record_ancestors(
    snapshots: &[Snapshot],
    start: i64,
    has_excluded: bool,
    excluded: i64,
    out: &mut [i64],
) -> Walked
    ensures answer { result ≡ walked (length out.old) (record_ancestors (map read_snapshot snapshots.now) start (given has_excluded excluded)) }
    ensures buffer { out.new ≡ walk_buffer out.old (record_ancestors (map read_snapshot snapshots.now) start (given has_excluded excluded)) }
{
    link_ancestors(gather(snapshots), start, has_excluded, excluded, out)
}

// Lends the counted records of a table to the entry above.
fn counted_ancestors(
    snapshots: Snapshots,
    start: i64,
    has_excluded: bool,
    excluded: i64,
    out: &mut [i64],
) -> Walked
    requires { snapshots.count ≤ 64 }
    ensures answer { result ≡ walked (length out.old) (record_ancestors (read_snapshots snapshots) start (given has_excluded excluded)) }
    ensures buffer { out.new ≡ walk_buffer out.old (record_ancestors (read_snapshots snapshots) start (given has_excluded excluded)) }
{
    record_ancestors(
        &snapshots.items[..snapshots.count],
        start,
        has_excluded,
        excluded,
        out,
    )
}

// The records of a table, for a caller that holds no slice of them. A count above 64 gives 1.
pub fn table_ancestors(
    snapshots: Snapshots,
    start: i64,
    has_excluded: bool,
    excluded: i64,
    out: &mut [i64],
) -> Walked
    ensures answer { result ≡ walked (length out.old) (record_ancestors (read_snapshots snapshots) start (given has_excluded excluded)) }
    ensures buffer { out.new ≡ walk_buffer out.old (record_ancestors (read_snapshots snapshots) start (given has_excluded excluded)) }
{
    let n = snapshots.count;
    if n > SNAPSHOTS {
        return Walked {
            number: LISTS_NOT_FORMED,
            count: 0,
        };
    }
    counted_ancestors(snapshots, start, has_excluded, excluded, out)
}
