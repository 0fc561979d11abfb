// Whether the row ranges that metadata holds are apart. Where they are, no run gives out a row id twice from then on, so an archive asks once.
// Document 02, request (xiii), speaks of the ranges that runs add. The test of those that are held is this project's own: the crate `rules` writes it in Rows.
#![tactic(auto)]

ghost use Rattle.std.specs.Prelude.{◌≡◌, ◌≤◌, ◌&&◌, leb, map};
ghost use Rattle.rules.specs.Words.{all, each_pair};
ghost use Rattle.rules.specs.Layout.{read_snapshot, read_snapshots};
ghost use Rattle.rules.specs.RowIds.{range_end};
ghost use Rattle.rules.specs.Rows.{rows_disjoint, rows_end_by, is_formed_and_apart};
ghost use Rattle.rules.specs.Capacities.{snapshot_room};

use records::counters::RowId;
use records::metadata::TableMetadata;
use records::snapshot::{Snapshot, Snapshots};

// The format version from which on row ids are given out.
const ROWS_FROM: u8 = 3;

// The range ends at the bound or before it; its end may be above 2^64 - 1.
fn ends_by(first: RowId, added: u64, bound: RowId) -> bool
    ensures { result ≡ leb (range_end first added) bound.0 }
{
    if first > bound {
        return false;
    }
    added <= bound.0 - first.0
}

fn rows_end_by(s: Snapshot, next: RowId) -> bool
    ensures { result ≡ rows_end_by next.0 (read_snapshot s) }
{
    !s.has_rows || ends_by(s.first_row_id, s.added_rows, next)
}

// No row id lies in both ranges, where both have one.
fn rows_disjoint(a: Snapshot, b: Snapshot) -> bool
    ensures { result ≡ rows_disjoint (read_snapshot a) (read_snapshot b) }
{
    !a.has_rows
        || !b.has_rows
        || a.added_rows == 0
        || b.added_rows == 0
        || ends_by(a.first_row_id, a.added_rows, b.first_row_id)
        || ends_by(b.first_row_id, b.added_rows, a.first_row_id)
}

// A snapshot's range is disjoint from those of the others.
fn disjoint_from(a: Snapshot, others: &[Snapshot]) -> bool
    ensures { result ≡ all (rows_disjoint (read_snapshot a)) (map read_snapshot others.now) }
{
    for b in others {
        if !rows_disjoint(a, *b) {
            return false;
        }
    }
    true
}

fn all_disjoint(snapshots: &[Snapshot]) -> bool
    ensures { result ≡ each_pair rows_disjoint (map read_snapshot snapshots.now) }
{
    for (i, a) in snapshots.iter().enumerate() {
        if !disjoint_from(*a, &snapshots[i + 1..]) {
            return false;
        }
    }
    true
}

fn all_end_by(snapshots: &[Snapshot], next: RowId) -> bool
    ensures { result ≡ all (rows_end_by next.0) (map read_snapshot snapshots.now) }
{
    for s in snapshots {
        if !rows_end_by(*s, next) {
            return false;
        }
    }
    true
}

// Of a table that fits its slots.
fn table_apart(t: Snapshots, next: RowId) -> bool
    requires { t.count ≤ snapshot_room }
    ensures { result ≡ (each_pair rows_disjoint (read_snapshots t) && all (rows_end_by next.0) (read_snapshots t)) }
{
    let held = &t.items[..t.count];
    all_disjoint(held) && all_end_by(held, next)
}

// Well formed, version 3, each two held ranges disjoint, and each ended by the next row id.
pub fn rows_apart(m: TableMetadata) -> bool
    ensures { result ≡ is_formed_and_apart m }
{
    if !formed::metadata::is_formed(m) {
        return false;
    }
    m.fields.format_version == ROWS_FROM && table_apart(m.snapshots, m.fields.next_row_id)
}
