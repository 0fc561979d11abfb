// Where the reader stands: from which byte it goes on, the least refusal so far (0 and 0 where there is none), how the last value ended, a count, and
// the number of a member.
ghost use Rattle.std.specs.Prelude.{◌≡◌, ◌≤◌, ◌<◌};
ghost use Rattle.file_cells.specs.Filled.{next_count};
ghost use Rattle.file_walk.specs.Seats.{is_before, refused, stopped, is_mark, stop_place, begun_by, after_one, over_number, counted as counted_by, settled_by};

use json_tokens::{END, Token, WHOLE};

#[derive(Clone, Copy)]
pub struct Seat {
    pub from: usize,
    pub number: usize,
    pub place: usize,
    pub state: usize,
    pub count: usize,
    pub spot: usize,
}

// Kept: a refusal is a number that is 0 where there is none, and a state is a number, as `said_by` of specs/Seats.antt and `told` of specs/Outcomes.antt read them.
// Read whole.
pub const READ: usize = 0;

// Broken off inside.
pub const CUT: usize = 1;

// Nothing could be read.
pub const MISSING: usize = 2;

// Inside brackets: one more is to come.
pub const GOES_ON: usize = 3;

// Whether a refusal comes before the least so far; 0 is no refusal.
fn is_before(number: usize, place: usize, seat: Seat) -> bool
    ensures { result ≡ is_before number place seat }
{
    if number == 0 {
        return false;
    }
    if seat.number == 0 {
        return true;
    }
    if seat.place == place {
        return number < seat.number;
    }
    place < seat.place
}

// One more refusal.
pub fn refuse(number: usize, place: usize, seat: Seat) -> Seat
    ensures { result ≡ refused number place seat }
{
    let mut s = seat;
    if is_before(number, place, seat) {
        s.number = number;
        s.place = place;
    }
    s
}

// Reading ends at a refusal.
pub fn stop(number: usize, place: usize, state: usize, seat: Seat) -> Seat
    ensures { result ≡ stopped number place state seat }
{
    let mut s = refuse(number, place, seat);
    s.state = state;
    s
}

// A whole lexeme that is this byte.
pub fn is_mark(byte: u8, t: Token) -> bool
    ensures { result ≡ is_mark byte t }
{
    if t.state == WHOLE {
        return t.head == byte;
    }
    false
}

// Where a lexeme cannot stand, or there is none.
pub fn stop_place(len: usize, t: Token) -> usize
    ensures { result ≡ stop_place len t }
{
    if t.state == END {
        return len;
    }
    t.first
}

// Behind the first bracket: the last at once, or one to come.
pub fn begun(close: u8, t: Token, seat: Seat) -> Seat
    ensures { result ≡ begun_by close t seat }
{
    let mut s = seat;
    s.count = 0;
    if is_mark(close, t) {
        s.from = t.after;
        s.state = READ;
        return s;
    }
    s.state = GOES_ON;
    s
}

// Behind an element or a member: a comma and one more, or the last bracket.
pub fn after_one(close: u8, len: usize, t: Token, seat: Seat) -> Seat
    ensures { result ≡ after_one close len t seat }
{
    let mut s = seat;
    if is_mark(b',', t) {
        s.from = t.after;
        s.state = GOES_ON;
        return s;
    }
    if is_mark(close, t) {
        s.from = t.after;
        s.state = READ;
        return s;
    }
    stop(27, stop_place(len, t), CUT, seat)
}

// What is refused of an element past the room of what is counted.
fn over_number(each: usize, room: usize, count: usize) -> usize
    ensures { result ≡ over_number each room count }
{
    if count < room {
        return 0;
    }
    if each == 0 {
        return 0;
    }
    29
}

// One more, up to the room.
fn next_count(room: usize, count: usize) -> usize
    ensures { result ≡ next_count room count }
{
    if count < room {
        return count + 1;
    }
    count
}

// With one more element, if there is something of it; so many were there before.
pub fn counted(each: usize, room: usize, first: usize, count: usize, seat: Seat) -> Seat
    ensures { result ≡ counted_by each room first count seat }
{
    let mut s = seat;
    s.count = count;
    if seat.state == MISSING {
        s.state = CUT;
        return s;
    }
    s.count = next_count(room, count);
    refuse(over_number(each, room, count), first, s)
}

// With one more member, if there is something of its value: the count before it, and with it.
pub fn settled(before: usize, behind: usize, seat: Seat) -> Seat
    ensures { result ≡ settled_by before behind seat }
{
    let mut s = seat;
    if seat.state == MISSING {
        s.state = CUT;
        s.count = before;
        return s;
    }
    s.count = behind;
    s
}
