// Cases 4 to 7 and 10: the leaves.
use case_reader::limit_text::{LimitText, read_limit_text};
use case_reader::untrimmed::read_untrimmed;
use case_writer::text::put_bytes;
use primitives::window::is_before;
use records::capacities::TEXT;
use records::counters::{Age, RowId, Time};
use records::run::DEFAULT_TOLERANCE_MS;
use slot_bounds::lent;
use tokens::field::{read_i64, read_u64};
use tokens::input::Input;
use tokens::number::{put_flag, put_u8, put_u64};
use tokens::output::Output;

fn limit_of(text: LimitText) -> u64 {
    let bytes = text.bytes;
    let slots: &[u8] = &bytes;
    let len = lent(slots, text.len);
    primitives::limit::limit(&slots[..len])
}

pub fn limit(input: &mut Input, output: &mut Output) {
    let text = read_limit_text(input);
    if input.is_good() {
        put_u64(output, limit_of(text));
    }
}

// At the usual tolerance, or at one that is read.
pub fn window(has_tolerance: bool, input: &mut Input, output: &mut Output) {
    let time = Time(read_i64(input));
    let last = Time(read_i64(input));
    let mut tolerance = DEFAULT_TOLERANCE_MS;
    if has_tolerance {
        tolerance = read_i64(input);
    }
    if input.is_good() {
        put_flag(output, !is_before(Age(tolerance), time, last));
    }
}

pub fn row_ids(input: &mut Input, output: &mut Output) {
    let next = RowId(read_u64(input));
    let first = RowId(read_u64(input));
    let added = read_u64(input);
    if input.is_good() {
        let checked = primitives::row_ids::check_rows(next, first, added);
        put_u8(output, checked.number);
        put_u64(output, checked.next.0);
    }
}

// A location above its slots is trimmed whole, and as many of its bytes are written as there are slots.
pub fn trim(input: &mut Input, output: &mut Output) {
    let mut slots = [0u8; TEXT];
    let len = read_untrimmed(input, &mut slots);
    if input.is_good() {
        if len <= TEXT {
            let trimmed = primitives::location::trim(&slots[..len]);
            put_bytes(output, trimmed, trimmed.len());
        } else {
            put_bytes(output, &slots, len);
        }
    }
}
