// Row ids at version 3.
ghost use Rattle.std.specs.Prelude.{◌≡◌};
ghost use Rattle.primitives.specs.Answers.{rows_checked};

use records::counters::RowId;
use records::replies::{ACCEPTED, FIRST_ROW_BEHIND, ROWS_OVERFLOW};

// The number is 0, 9 or 11. The next row id is the one after the range; on a refusal it is the one that came in.
#[derive(Clone, Copy)]
pub struct RowsChecked {
    pub number: u8,
    pub next: RowId,
}

#[tactic(auto, unfolding(crate::specs::Answers::rows_checked, rules::specs::RowIds::row_number, rules::specs::RowIds::row_next))]
pub fn check_rows(next: RowId, first: RowId, added: u64) -> RowsChecked
    ensures { result ≡ rows_checked next first added }
{
    if first < next {
        return RowsChecked {
            number: FIRST_ROW_BEHIND,
            next,
        };
    }
    match first.0.checked_add(added) {
        Some(end) => RowsChecked {
            number: ACCEPTED,
            next: RowId(end),
        },
        None => RowsChecked {
            number: ROWS_OVERFLOW,
            next,
        },
    }
}
