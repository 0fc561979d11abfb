// The current snapshot.
ghost use Rattle.std.specs.Prelude.{◌≡◌};
ghost use Rattle.file_records.specs.Decoded.{current_in};
ghost use Rattle.file_records.specs.Current.{laid_current};

use crate::offsets::CURRENT_SNAPSHOT_ID;
use crate::value::{Cells, head_of, is_there, number};
use records::counters::SnapshotId;

// `null` and -1 are none.
pub fn current(bytes: &[u8], cells: &Cells) -> Option<SnapshotId>
    ensures { result ≡ laid_current (current_in bytes.now cells.now) }
{
    if head_of(bytes, cells, CURRENT_SNAPSHOT_ID) == b'n' {
        return None;
    }
    if !is_there(cells, CURRENT_SNAPSHOT_ID) {
        return None;
    }
    let id = SnapshotId(number(bytes, cells, CURRENT_SNAPSHOT_ID).0);
    if id == SnapshotId(-1) {
        return None;
    }
    Some(id)
}
