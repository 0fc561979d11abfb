// A difference, or a later one where the same stands.
ghost use Rattle.std.specs.Prelude.{◌≡◌, cond};
ghost use Rattle.std.proofs.Math.Option.{none, some};
ghost use Rattle.compare.specs.First.{in_part};

// The part is 0 where nothing differs. The place is that of a table's first record that differs; a table whose records are the same
// and whose counts differ has its number of slots there, and a single field has 0.
#[derive(Clone, Copy)]
pub struct Difference {
    pub part: u8,
    pub place: usize,
}

pub fn unless(same: bool, part: u8, place: usize, later: Difference) -> Difference
    ensures { result ≡ in_part part (cond same none (some place)) later }
{
    if same {
        return later;
    }
    Difference { part, place }
}
