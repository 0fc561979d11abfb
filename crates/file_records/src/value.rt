// A value by the first of its two cells: one more than its place in the file, or 0 where it is absent; and the magnitude of a number, whose sign is the byte at
// its place. A list by its first cell: one more than how many it has, or 0.
ghost use Rattle.std.specs.Prelude.{◌≡◌, ◌+◌, ◌<◌, ◌≤◌};
ghost use Rattle.file_records.specs.Decoded.{is_there, place_of, natural_at, count_at, head_of, number_at, or_zero_at, or_zero_narrow_at};

use json_store::numbers::{Narrow, Whole, narrowed, signed};

pub const CELLS: usize = 9047;

pub type Cells = [u64; CELLS];

pub fn is_there(cells: &Cells, at: usize) -> bool
    requires { at < 9047 }
    ensures { result ≡ is_there cells.now at }
{
    cells[at] > 0
}

// Its place in the file.
pub fn place_of(cells: &Cells, at: usize) -> usize
    requires { at < 9047 }
    ensures { result ≡ place_of cells.now at }
{
    let cell = cells[at] as usize;
    if cell == 0 {
        return 0;
    }
    cell - 1
}

// Its first byte in the file.
pub fn head_of(bytes: &[u8], cells: &Cells, at: usize) -> u8
    requires { at < 9047 }
    ensures { result ≡ head_of bytes.now cells.now at }
{
    let place = place_of(cells, at);
    if place < bytes.len() {
        return bytes[place];
    }
    0
}

// How many a list has, at most as many as there is room for.
#[tactic(auto, unfolding(crate::specs::Decoded::count_at, crate::specs::Decoded::place_of))]
pub fn count_of(cells: &Cells, list: usize, room: usize) -> usize
    requires { list < 9047 }
    ensures count { result ≡ count_at cells.now room list }
    ensures within { result ≤ room }
{
    let count = place_of(cells, list);
    if count <= room {
        return count;
    }
    room
}

// A number that is not below 0; 0 where it is absent.
pub fn natural(cells: &Cells, at: usize) -> u64
    requires { at + 1 < 9047 }
    ensures { result ≡ natural_at cells.now at }
{
    if is_there(cells, at) {
        return cells[at + 1];
    }
    0
}

fn number_at(bytes: &[u8], cells: &Cells, at: usize) -> Whole
    requires { at + 1 < 9047 }
    ensures { result.0 ≡ number_at bytes.now cells.now at }
{
    signed(head_of(bytes, cells, at) == b'-', cells[at + 1])
}

// Of 64 bits; 0 where it is absent.
pub fn number(bytes: &[u8], cells: &Cells, at: usize) -> Whole
    requires { at + 1 < 9047 }
    ensures { result.0 ≡ or_zero_at bytes.now cells.now at }
{
    if is_there(cells, at) {
        return number_at(bytes, cells, at);
    }
    Whole(0)
}

// Of 32 bits; 0 where it is absent.
pub fn narrow_number(bytes: &[u8], cells: &Cells, at: usize) -> Narrow
    requires { at + 1 < 9047 }
    ensures { result.0 ≡ or_zero_narrow_at bytes.now cells.now at }
{
    if is_there(cells, at) {
        return narrowed(number_at(bytes, cells, at));
    }
    Narrow(0)
}
