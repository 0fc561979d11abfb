// Which members a record lacks.
ghost use Rattle.std.specs.Prelude.{◌≡◌, not, ◌&&◌, eqb};
ghost use Rattle.file_members.specs.Names.{first_of, count_of};
ghost use Rattle.file_members.specs.Standings.{standing_at};
ghost use Rattle.file_members.specs.Flags.{lacking, lacks_in};

use crate::kind::{HELD_SNAPSHOT, count_of, first_of};
use crate::spot::{ADDED_ROWS, FIRST_ROW_ID, SNAPSHOT_ID};
use crate::standing::{REQUIRED, standing};

// A flag for each member of a record, in the order of its table.
pub const FLAGS: usize = 23;

pub type Seen = [bool; FLAGS];

// Whether a member is required in a version, and was not seen.
fn is_lacking(version: usize, spot: usize, seen: bool) -> bool
    ensures { result ≡ eqb (standing_at version spot) 2 && not seen }
{
    standing(version, spot) == REQUIRED && !seen
}

// One after another.
fn lacks_any(version: usize, kind: usize, seen: &Seen) -> bool
    ensures { result ≡ lacking version (first_of kind) (count_of kind) 0 seen.now }
{
    let first = first_of(kind);
    for (i, was_seen) in seen[..count_of(kind)].iter().enumerate() {
        if is_lacking(version, first + i, *was_seen) {
            return true;
        }
    }
    false
}

// Whether a record lacks a member that it must have. The row range of a snapshot has both its numbers, or neither.
pub fn lacks(version: usize, kind: usize, seen: &Seen) -> bool
    ensures { result ≡ lacks_in version kind seen.now }
{
    if lacks_any(version, kind, seen) {
        return true;
    }
    kind == HELD_SNAPSHOT
        && version == 3
        && seen[FIRST_ROW_ID - SNAPSHOT_ID] != seen[ADDED_ROWS - SNAPSHOT_ID]
}
