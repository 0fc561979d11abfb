// The names of an object under names of its own.
ghost use Rattle.std.specs.Prelude.{◌≡◌, ◌≤◌, ◌<◌, length, set};
ghost use Rattle.rules.specs.Words.{same_bytes, some_with};
ghost use Rattle.json_rule.specs.Members.{is_one_of};
ghost use Rattle.json_members.specs.Kept.{front};
ghost use Rattle.file_cells.specs.Cells.{size_at};
ghost use Rattle.file_cells.specs.Filled.{named_cells};
ghost use Rattle.file_walk.specs.Seats.{said_by};
ghost use Rattle.file_walk.specs.Named.{over_room, name_at, names_at, is_early, own_fault, name_fault, no_name_place, behind_name, name_judged, name_put, MayName, NameRead};

use crate::cells::{Cells, put_value};
use crate::seat::{CUT, GOES_ON, MISSING, Seat, is_mark, refuse, stop, stop_place};
use file_members::cell::size_of;
use json_lex::text::{KEPT, Kept, LONE};
use json_members::word::is_word;
use json_tokens::{BROKEN, Token, next};

// No object has room for more.
pub const NAMES: usize = 128;

// Where the names stand that were there before.
pub type Places = [usize; NAMES];

// The longest name.
pub const LONGEST: usize = 32;

// Whether the text at a place is the one that is kept.
fn is_again(bytes: &[u8], place: usize, kept: &Kept, len: usize) -> bool
    requires { len ≤ 96 }
    ensures { result ≡ some_with (same_bytes (front len kept.now)) (name_at bytes.now place) }
{
    let mut other: Kept = [0; KEPT];
    let t = next(bytes, place, &mut other);
    if !is_mark(b'"', t) {
        return false;
    }
    let n = t.len;
    if n >= KEPT {
        return false;
    }
    is_word(kept, len, &other[..n])
}

// Whether the name that is kept is one of those at the first so many places.
fn was_there(bytes: &[u8], places: &Places, count: usize, kept: &Kept, len: usize) -> bool
    requires { (count ≤ 128) × (len ≤ 96) }
    ensures { result ≡ is_one_of (names_at bytes.now places.now count) (front len kept.now) }
{
    for place in &places[..count] {
        if is_again(bytes, *place, kept, len) {
            return true;
        }
    }
    false
}

// What is wrong with a name by its length.
fn own_fault(len: usize) -> usize
    ensures { result ≡ own_fault len }
{
    if len == LONE {
        return 28;
    }
    if len <= LONGEST {
        return 0;
    }
    29
}

// Whether something was refused before a place.
fn is_early(place: usize, seat: Seat) -> bool
    ensures { result ≡ is_early (said_by seat) place }
{
    if seat.number == 0 {
        return false;
    }
    seat.place < place
}

// What is wrong with a name. Where something was refused before it, it does not matter whether it was there before, nor would all earlier names be known.
fn name_fault(bytes: &[u8], places: &Places, kept: &Kept, t: Token, seat: Seat) -> usize
    requires { seat.count ≤ 128 }
    ensures { result ≡ name_fault bytes.now places.now kept.now t seat }
{
    let own = own_fault(t.len);
    if own != 0 {
        return own;
    }
    if is_early(t.first, seat) {
        return 0;
    }
    if was_there(bytes, places, seat.count, kept, t.len) {
        return 28;
    }
    0
}

// What is refused of a name past the room.
fn over_room(room: usize, count: usize) -> usize
    ensures { result ≡ over_room room count }
{
    if count < room {
        return 0;
    }
    29
}

// Where no name can be read.
fn no_name_place(len: usize, t: Token) -> usize
    ensures { result ≡ no_name_place len t }
{
    if t.state != BROKEN {
        return stop_place(len, t);
    }
    if t.head != b'"' {
        return stop_place(len, t);
    }
    t.stop
}

// Behind a name: a colon, and the value is to come; the seat has the place of the name in place of a count.
fn behind_name(len: usize, c: Token, place: usize, seat: Seat) -> Seat
    ensures { result ≡ behind_name len c place seat }
{
    let mut s = seat;
    if is_mark(b':', c) {
        s.from = c.after;
        s.state = GOES_ON;
        s.count = place;
        return s;
    }
    stop(27, stop_place(len, c), CUT, seat)
}

// There are as many places as the type says, which a proof learns where they are lent as a slice. Nothing is done with them.
fn see_places(places: &Places)
    ensures { length places.now ≡ 128 }
{
    let slots = &places[..];
}

// A place that is there is set.
fn put_place(places: &mut Places, count: usize, place: usize)
    ensures { places.new ≡ set places.old count place }
{
    see_places(places);
    if count < NAMES {
        places[count] = place;
    }
}

// A name is judged: past the room, by itself, and by those before it.
fn judge(
    bytes: &[u8],
    places: &Places,
    kept: &Kept,
    room: usize,
    first: usize,
    t: Token,
    seat: Seat,
) -> Seat
    requires { seat.count ≤ 128 }
    ensures { result ≡ name_judged bytes.now places.now kept.now room first t seat }
{
    let over = refuse(over_room(room, seat.count), first, seat);
    refuse(name_fault(bytes, places, kept, t, over), t.first, over)
}

// A name and the colon behind it: the value is to come, or nothing more is read.
pub fn read_name(
    bytes: &[u8],
    kept: &mut Kept,
    places: &mut Places,
    room: usize,
    first: usize,
    seat: Seat,
) -> Seat
    requires { MayName bytes.now room seat }
    ensures { NameRead bytes.now room first seat places.old result places.new }
{
    see_places(places);
    let t = next(bytes, seat.from, kept);
    if !is_mark(b'"', t) {
        return stop(27, no_name_place(bytes.len(), t), CUT, seat);
    }
    let judged = judge(bytes, places, kept, room, first, t, seat);
    put_place(places, seat.count, t.first);
    let c = next(bytes, t.after, kept);
    behind_name(bytes.len(), c, t.first, judged)
}

// Where there is something of a value, its name is put in front of it.
pub fn put_name(cells: &mut Cells, spot: usize, place: usize, seat: Seat)
    requires { (spot ≤ 33554432) × (place < seat.from) }
    ensures { cells.new ≡ name_put seat.state spot place cells.old }
{
    if seat.state != MISSING {
        put_value(cells, spot, place as u64 + 1, 0);
    }
}

// Where the cells of a name and its value begin: behind the count, one after the other.
pub fn named_cells(base: usize, each: usize, count: usize) -> usize
    requires { (base ≤ 33554432) × ((count ≤ 128) × (size_at each ≤ 9047)) }
    ensures { result ≡ named_cells base each count }
{
    base + 1 + count * (2 + size_of(each))
}
