// Tables compared, slot by slot and then by their counts.
ghost use Rattle.std.specs.Prelude.{◌≡◌, length};
ghost use Rattle.compare.specs.First.{unlike, in_part};

use crate::difference::{Difference, unless};

pub fn compare_tables<T: PartialEq>(
    a: &[T],
    b: &[T],
    a_count: usize,
    b_count: usize,
    part: u8,
    later: Difference,
) -> Difference
    requires { length a.now ≡ length b.now }
    ensures { result ≡ in_part part (unlike T.eq 0 a.now b.now a_count b_count) later }
{
    for (i, x) in a.iter().enumerate() {
        if *x != b[i] {
            return Difference { part, place: i };
        }
    }
    unless(a_count == b_count, part, a.len(), later)
}
