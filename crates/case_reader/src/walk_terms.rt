// What stands after the lists or the records of a walk.
ghost use Rattle.std.specs.Prelude.{◌≤◌};

use crate::ids::read_buffer_length;
use tokens::field::{read_flag, read_i64};
use tokens::input::Input;

#[derive(Clone, Copy)]
pub struct WalkTerms {
    pub start: i64,
    pub has_excluded: bool,
    pub excluded: i64,
    pub buffer_length: usize,
}

pub fn read_walk_terms(input: &mut Input) -> WalkTerms
    ensures { result.buffer_length ≤ 80 }
{
    let start = read_i64(input);
    let has_excluded = read_flag(input);
    let excluded = read_i64(input);
    let buffer_length = read_buffer_length(input);
    WalkTerms {
        start,
        has_excluded,
        excluded,
        buffer_length,
    }
}
