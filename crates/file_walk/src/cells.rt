// The cells in which values are held while a file is read.
ghost use Rattle.std.specs.Prelude.{◌≡◌, cond, suc, ◌+◌, ◌≤◌, ◌<◌, eqb, length, set};
ghost use Rattle.file_cells.specs.Cells.{size_at};
ghost use Rattle.file_cells.specs.Filled.{put_count, item_cells};

use crate::seat::{READ, Seat};
use file_members::cell::size_of;

// All cells of a file.
pub const CELLS: usize = 9047;

pub type Cells = [u64; CELLS];

// There are as many cells as the type says, which a proof learns where they are lent as a slice. Nothing is done with them.
fn room(cells: &Cells)
    ensures { length cells.now ≡ 9047 }
{
    let slots = &cells[..];
}

// A cell that is there is set.
pub fn put(cells: &mut Cells, base: usize, x: u64)
    ensures { cells.new ≡ set cells.old base x }
{
    room(cells);
    if base < CELLS {
        cells[base] = x;
    }
}

// A value: one more than its place, and a magnitude.
pub fn put_value(cells: &mut Cells, base: usize, mark: u64, size: u64)
    requires { base ≤ 33554432 }
    ensures { cells.new ≡ set (set cells.old base mark) (suc base) size }
{
    put(cells, base, mark);
    put(cells, base + 1, size);
}

// Where a list was closed, one more than its count is put before its elements.
pub fn put_count(cells: &mut Cells, each: usize, base: usize, seat: Seat)
    requires { seat.count ≤ 128 }
    ensures { cells.new ≡ cond (eqb seat.state 0) (put_count each base seat.count cells.old) cells.old }
{
    if seat.state == READ {
        if each != 0 {
            put(cells, base, seat.count as u64 + 1);
        }
    }
}

// Where the cells of an element begin: behind the count, one after the other.
pub fn item_cells(base: usize, each: usize, count: usize) -> usize
    requires { (base ≤ 33554432) × ((count ≤ 128) × (size_at each ≤ 9047)) }
    ensures { result ≡ item_cells base each count }
{
    base + 1 + count * size_of(each)
}
