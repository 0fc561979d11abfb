// A name of an object and the colon behind it: which member it is, and whether it was there before.
ghost use Rattle.std.specs.Prelude.{◌≡◌, ◌≤◌, ◌<◌, length};
ghost use Rattle.file_members.specs.Flags.{marked};
ghost use Rattle.file_walk.specs.Seats.{refused, spotting};
ghost use Rattle.file_walk.specs.Members.{was_seen, HasFlag, name_number, next_skip, fresh_spot, name_stop, after_colon, NameRead};

use crate::seat::{CUT, GOES_ON, Seat, is_mark, refuse, stop, stop_place};
use file_members::kind::first_of;
use file_members::name::member;
use file_members::seen::Seen;
use json_lex::text::Kept;
use json_tokens::{BROKEN, END, Token, next};

// What is no record has this number or one above.
pub const NO_RECORD: usize = 13;

// Whether the flag of a member is set; what is unknown has none.
fn was_seen(seen: &Seen, first: usize, known: usize) -> bool
    requires { HasFlag first known }
    ensures { result ≡ was_seen first known seen.now }
{
    if known == 0 {
        return false;
    }
    seen[known - first]
}

// The flag of a member is set.
fn mark(seen: &mut Seen, first: usize, known: usize)
    requires { HasFlag first known }
    ensures { seen.new ≡ marked first known seen.old }
{
    if known != 0 {
        seen[known - first] = true;
    }
}

// What is wrong with a name: what is no record says nothing of it, and the file skips what it does not know.
fn name_number(kind: usize, known: usize, repeated: bool) -> usize
    ensures { result ≡ name_number kind known repeated }
{
    if kind >= NO_RECORD {
        return 0;
    }
    if known == 0 {
        if kind == 0 {
            return 0;
        }
        return 28;
    }
    if repeated {
        return 28;
    }
    0
}

fn fresh_spot(known: usize, repeated: bool) -> usize
    ensures { result ≡ fresh_spot known repeated }
{
    if repeated {
        return 0;
    }
    known
}

// A name is judged, and says which member is wanted.
fn judged(kind: usize, known: usize, repeated: bool, place: usize, seat: Seat) -> Seat
    ensures { result ≡ spotting (fresh_spot known repeated) (refused (name_number kind known repeated) place seat) }
{
    let mut s = refuse(name_number(kind, known, repeated), place, seat);
    s.spot = fresh_spot(known, repeated);
    s
}

// What the file does not know is counted.
fn next_skip(kind: usize, known: usize, count: usize, len: usize) -> usize
    requires { count < len }
    ensures { result ≡ next_skip kind known count }
{
    if kind == 0 {
        if known == 0 {
            return count + 1;
        }
    }
    count
}

// Where a name cannot stand, or breaks off.
fn name_stop(len: usize, t: Token) -> usize
    ensures { result ≡ name_stop len t }
{
    if t.state == END {
        return len;
    }
    if t.state == BROKEN {
        if t.head == b'"' {
            return t.stop;
        }
    }
    t.first
}

// Behind a name: the colon, and a value to come.
fn after_colon(kind: usize, known: usize, len: usize, t: Token, seat: Seat) -> Seat
    requires { seat.count < len }
    ensures { result ≡ after_colon kind known len t seat }
{
    if is_mark(b':', t) {
        let mut s = seat;
        s.count = next_skip(kind, known, seat.count, len);
        s.from = t.after;
        s.state = GOES_ON;
        return s;
    }
    stop(27, stop_place(len, t), CUT, seat)
}

// A name and the colon behind it.
pub fn name(
    bytes: &[u8],
    kept: &mut Kept,
    seen: &mut Seen,
    version: usize,
    kind: usize,
    seat: Seat,
) -> Seat
    requires { (seat.count ≤ seat.from) × (seat.from ≤ length bytes.now) }
    ensures { NameRead bytes.now version kind seat seen.old result seen.new }
{
    let t = next(bytes, seat.from, kept);
    if !is_mark(b'"', t) {
        return stop(27, name_stop(bytes.len(), t), CUT, seat);
    }
    let known = member(version, kind, kept, t.len);
    let first = first_of(kind);
    let s = judged(kind, known, was_seen(seen, first, known), t.first, seat);
    mark(seen, first, known);
    let c = next(bytes, t.after, kept);
    after_colon(kind, known, bytes.len(), c, s)
}
