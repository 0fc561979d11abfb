// Checks in order, without a branch: each is made, and the first that fails gives the number.
ghost use Rattle.std.specs.Prelude.{◌≡◌, cond, ◌&&◌, leb};

pub fn choose(test: bool, number: u8, rest: u8) -> u8
    ensures { result ≡ cond test number rest }
{
    if test { number } else { rest }
}

// One more is asked for, and there is no room.
pub fn is_full(more: bool, count: usize, room: usize) -> bool
    ensures { result ≡ (more && leb room count) }
{
    more && count >= room
}
