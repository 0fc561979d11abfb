// The lists of a walk over ids, and how long the buffer of any walk is.
ghost use Rattle.std.specs.Prelude.{◌≤◌};
ghost use Rattle.slot_bounds.specs.Counted.{Counted};

use slot_bounds::{store_id, with_slots};
use tokens::field::{read_count, read_i64, read_up_to};
use tokens::input::Input;

// A list above 64 is refused for its length, whatever stands in it, so one slot more than that is enough.
pub const IDS: usize = 65;

pub const BUFFER: usize = 80;

// How many slots are used.
pub fn read_ids(input: &mut Input, ids: &mut [i64]) -> usize
    ensures { Counted result ids.new }
{
    let count = read_count(input);
    for i in 0..count {
        if !input.is_good() {
            break;
        }
        let id = read_i64(input);
        store_id(ids, i, id);
    }
    with_slots(count, ids.len())
}

pub fn read_buffer_length(input: &mut Input) -> usize
    ensures { result ≤ 80 }
{
    read_up_to(input, BUFFER as u64) as usize
}
