// The slots of a table.
ghost use Rattle.std.specs.Prelude.{ℕ, ◌<◌, ◌≤◌, length};
ghost use Rattle.file_records.specs.Filled.{Fills};

// The first so many slots hold what is made of their numbers; those behind them stay.
pub fn fill<T: Copy, F: Fn(usize) -> T>(slots: &mut [T], count: usize, made: F)
    requires room { count ≤ length slots.old }
    requires of_each { (i : ℕ) → i < count → F.pre made i }
    ensures { Fills (F.post made) count slots.old slots.new }
{
    for i in 0..count {
        slots[i] = made(i);
    }
}
