// The cases of the case format but the runs: walks, small functions, the snapshot at a time, rows apart, expiries, lists of updates as JSON, metadata files;
// walks made again and again, to time them; and the date of a time. Each is read, and its answer written in numbers.
// Nothing is refused but what can not be read.
// The page of the case format decides.
#![tactic(auto)]

use expiries::asked::EXPIRY;
use file_cases::export::EXPORT;
use file_cases::import::IMPORT;
use tokens::input::Input;
use tokens::output::Output;
use tokens::wanted::Wanted;
use update_lists::case::LIST;

pub mod dates;
mod leaf;
mod moments;
mod rows;
mod walks;

// The highest kind of a case.
pub const KINDS: u64 = 22;

// Those that are worth being timed: walks over ids, and over records.
pub const WALK_OVER_IDS: u64 = 2;

pub const WALK_OVER_RECORDS: u64 = 3;

// Reads the rest of a case of this kind, and answers it if it is good: a walk so many times, anything else once.
pub fn answer(kind: u64, times: u64, input: &mut Input, output: &mut Output) {
    match kind {
        WALK_OVER_IDS => walks::ids(times, input, output),
        WALK_OVER_RECORDS => walks::records(times, input, output),
        4 => leaf::limit(input, output),
        5 => leaf::window(false, input, output),
        6 => leaf::row_ids(input, output),
        7 => leaf::trim(input, output),
        8 => moments::current_at(input, output),
        10 => leaf::window(true, input, output),
        11 => rows::rows_apart(input, output),
        EXPIRY => expiries::list::answer(input, output),
        LIST => update_lists::case::answer(input, output),
        IMPORT => file_cases::import::answer(input, output),
        EXPORT => file_cases::export::answer(input, output),
        _ => input.spoil(Wanted::Case(KINDS)),
    }
}
