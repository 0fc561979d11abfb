// The version that a file says: 1, 2 or 3, and 0 where it is none of these. The first `format-version` decides, wherever it stands; what stands before it is passed
// over.
ghost use Rattle.std.specs.Prelude.{◌≡◌, ◌≤◌, length};
ghost use Rattle.json_rule.specs.Lexemes.{lexemes};
ghost use Rattle.json_tokens.specs.Tokens.{lexemes_at};
ghost use Rattle.json_descent.specs.Descent.{value_from};
ghost use Rattle.file_import.specs.Versions.{known_by, version_in, version_from, version_behind, version_after, version_at_start};
ghost use Rattle.file_import.specs.Passing.{Passes};

use file_walk::cells::Cells;
use file_walk::reader::value;
use file_walk::seat::Seat;
use json_lex::byte::is_digit;
use json_lex::text::{KEPT, Kept};
use json_members::word::is_word;
use json_tokens::{WHOLE, next};

// A version that is none of the three.
const NO_VERSION: usize = 0;

// What is wanted where anything may stand.
const ANYTHING: usize = 0;

const READ: usize = 0;

// The version that a number is.
fn known_version(head: u8, integer: bool, magnitude: u64) -> usize
    ensures { result ≡ known_by head integer magnitude }
{
    if !is_digit(head) {
        return NO_VERSION;
    }
    if !integer {
        return NO_VERSION;
    }
    if magnitude < 1 {
        return NO_VERSION;
    }
    if magnitude > 3 {
        return NO_VERSION;
    }
    magnitude as usize
}

// The version that the value from a place on says.
fn version_at(bytes: &[u8], from: usize, kept: &mut Kept) -> usize
    ensures { result ≡ version_in (value_from (length bytes.now) 1 (lexemes_at bytes.now from)) }
{
    let t = next(bytes, from, kept);
    if t.state != WHOLE {
        return NO_VERSION;
    }
    known_version(t.head, t.integer, t.magnitude)
}

// Where the search for the version stands: at the next name, or at its end.
#[derive(Clone, Copy)]
enum Passed {
    At(usize),
    Ended(usize),
}

// A value that is passed over, and the comma behind it.
fn pass(bytes: &[u8], from: usize, kept: &mut Kept, cells: &mut Cells) -> Passed
    requires { from ≤ length bytes.now }
    ensures { Passes bytes.now from result (version_behind (length bytes.now) (value_from (length bytes.now) 1 (lexemes_at bytes.now from))) }
{
    let start = Seat {
        from,
        number: 0,
        place: 0,
        state: 0,
        count: 0,
        spot: 0,
    };
    let seat = value(bytes, kept, cells, NO_VERSION, ANYTHING, 0, 0, 1, start);
    if seat.state != READ {
        return Passed::Ended(NO_VERSION);
    }
    let comma = next(bytes, seat.from, kept);
    if comma.state != WHOLE {
        return Passed::Ended(NO_VERSION);
    }
    if comma.head != b',' {
        return Passed::Ended(NO_VERSION);
    }
    Passed::At(comma.after)
}

// The value behind a name: the version where that is its name, and else it is passed over.
fn take_value(bytes: &[u8], from: usize, kept: &mut Kept, cells: &mut Cells, found: bool) -> Passed
    requires { from ≤ length bytes.now }
    ensures { Passes bytes.now from result (version_after (length bytes.now) found (value_from (length bytes.now) 1 (lexemes_at bytes.now from))) }
{
    if found {
        return Passed::Ended(version_at(bytes, from, kept));
    }
    pass(bytes, from, kept, cells)
}

// One member: a name, a colon and a value.
fn take_member(bytes: &[u8], from: usize, kept: &mut Kept, cells: &mut Cells) -> Passed
    ensures { Passes bytes.now from result (version_from (length bytes.now) (lexemes_at bytes.now from)) }
{
    let name = next(bytes, from, kept);
    if name.state != WHOLE {
        return Passed::Ended(NO_VERSION);
    }
    if name.head != b'"' {
        return Passed::Ended(NO_VERSION);
    }
    let is_version = is_word(kept, name.len, b"format-version");
    let colon = next(bytes, name.after, kept);
    if colon.state != WHOLE {
        return Passed::Ended(NO_VERSION);
    }
    if colon.head != b':' {
        return Passed::Ended(NO_VERSION);
    }
    take_value(bytes, colon.after, kept, cells, is_version)
}

pub fn version_of(bytes: &[u8], cells: &mut Cells) -> usize
    ensures { result ≡ version_at_start (length bytes.now) (lexemes_at bytes.now 0) }
{
    let mut kept = [0u8; KEPT];
    let brace = next(bytes, 0, &mut kept);
    if brace.state != WHOLE {
        return NO_VERSION;
    }
    if brace.head != b'{' {
        return NO_VERSION;
    }
    let mut from = brace.after;
    loop {
        match take_member(bytes, from, &mut kept, cells) {
            Passed::At(next) => from = next,
            Passed::Ended(version) => return version,
        }
    }
}
