// A table of statistics files. As the other tables it is searched slot by slot, by the keys of its records (`runs`).
ghost use Rattle.std.specs.Prelude.{◌≡◌, ◌≤◌, ◌<◌, true, false, not, ◌∷◌, ◌++◌, take, drop};
ghost use Rattle.std.specs.Int.Signed.{lt_z};
ghost use Rattle.rules.specs.Words.{put as putBy, keep, ascending};
ghost use Rattle.rules.specs.WellFormed.{statistics_below};
ghost use Rattle.rules.specs.StatisticsUpdates.{is_of, has_file_of};
ghost use Rattle.rules.specs.Layout.{read_statistics_file, read_statistics, laid_statistics};
ghost use Rattle.search.specs.Places.{index_of};
ghost use Rattle.tables.specs.Laid.{LaidStatisticsFile, LaidStatistics};

use crate::keys::snapshot_key;
use crate::runs::{holds_key, insert, keep_into, place_of};
use records::counters::SnapshotId;
use records::statistics::{StatisticsFile, StatisticsFiles};

// The table has a file of the snapshot.
pub fn has_file_of(t: StatisticsFiles, id: SnapshotId) -> bool
    requires { LaidStatistics t }
    ensures { result ≡ has_file_of (read_statistics t) id.0 }
{
    holds_key(&t.items[..t.count], snapshot_key(id))
}

// The file in its place; it takes the place of one of the same snapshot.
pub fn put(t: StatisticsFiles, x: StatisticsFile) -> StatisticsFiles
    requires laid_statistics { LaidStatistics t }
    requires laid_statistics_file { LaidStatisticsFile x }
    requires count_bound { has_file_of (read_statistics t) x.snapshot_id.0 ≡ false → t.count < 32 }
    requires t_value { ascending statistics_below (read_statistics t) ≡ true }
    ensures { result ≡ laid_statistics (putBy statistics_below (read_statistics_file x) (read_statistics t)) }
{
    let at = place_of(&t.items[..t.count], snapshot_key(x.snapshot_id));
    let mut changed = t;
    if at < t.count && t.items[at].snapshot_id == x.snapshot_id {
        changed.items[at] = x;
        return changed;
    }
    insert(&mut changed.items, t.count, at, x);
    changed.count += 1;
    changed
}

pub fn without(t: StatisticsFiles, id: SnapshotId) -> StatisticsFiles
    requires { LaidStatistics t }
    ensures { result ≡ laid_statistics (keep (λ x. not (is_of id.0 x)) (read_statistics t)) }
{
    let mut rest = StatisticsFiles::blank();
    rest.count = keep_into(
        &t.items[..t.count],
        &mut rest.items,
        |f| f.snapshot_id != id,
    );
    rest
}
