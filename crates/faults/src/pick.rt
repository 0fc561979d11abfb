// One of two faults.
ghost use Rattle.std.specs.Prelude.{◌≡◌, cond, not, eqb};

use crate::fault;

// The number where a test fails, and else what was found later.
pub fn unless(passes: bool, number: u8, later: u8) -> u8
    ensures { result ≡ cond (not passes) number later }
{
    if passes { later } else { number }
}

// The earlier fault, if there is one.
pub fn or_later(earlier: u8, later: u8) -> u8
    ensures { result ≡ cond (eqb earlier 0) later earlier }
{
    if earlier == fault::NONE {
        later
    } else {
        earlier
    }
}
