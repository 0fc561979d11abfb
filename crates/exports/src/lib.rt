// What the catalogue service calls by C linkage: the limit of the metadata log, the time window and the row-id check.
// A row range is refused with 9 or 11; the other two answer any input.
// Document 01 decides, as the crate `rules` writes it in Limit, Window and RowIds; the work is done in `leaves`.
#![tactic(auto)]

ghost use Rattle.std.specs.Prelude.{◌≡◌};
ghost use Rattle.rules.specs.Limit.{limit_of};
ghost use Rattle.rules.specs.Window.{is_before};
ghost use Rattle.exports.specs.Answers.{row_check};

use primitives::limit::limit;
use primitives::row_ids::check_rows;
use primitives::window::is_before;
use records::counters::{Age, RowId, Time};

// The number is 0, 9 or 11; on a refusal the next row id is the one that came in.
#[repr(C)]
#[derive(Clone, Copy)]
pub struct RowCheck {
    pub number: u8,
    pub next: u64,
}

#[unsafe(no_mangle)]
pub extern "C" fn register_limit(text: &[u8]) -> u64
    ensures { result ≡ limit_of text.now }
{
    limit(text)
}

// Whether the time is more than the tolerance before the last one, all in milliseconds. The range of a run's tolerance is not asked here.
#[unsafe(no_mangle)]
pub extern "C" fn register_too_early(time: i64, last: i64, tolerance: i64) -> bool
    ensures { result ≡ is_before tolerance time last }
{
    is_before(Age(tolerance), Time(time), Time(last))
}

#[unsafe(no_mangle)]
pub extern "C" fn register_row_check(next: u64, first: u64, added: u64) -> RowCheck
    ensures { result ≡ row_check next first added }
{
    let checked = check_rows(RowId(next), RowId(first), added);
    let next = checked.next;
    RowCheck {
        number: checked.number,
        next: next.0,
    }
}
