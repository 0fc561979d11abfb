// A value that is no list and no object.
ghost use Rattle.std.specs.Prelude.{◌≡◌, suc, ◌≤◌, ◌<◌, length};
ghost use Rattle.json_rule.specs.Defects.{stands_at};
ghost use Rattle.json_tokens.specs.Tokens.{TokenAt};
ghost use Rattle.file_cells.specs.Wants.{stands_at_schema};
ghost use Rattle.file_walk.specs.Seats.{counting, stopped};
ghost use Rattle.file_walk.specs.Walked.{begins_word, begins_number, stands_alone, size_kept, FaultSaid, ScalarHeld, ScalarRead};

use crate::cells::{Cells, put_value};
use crate::seat::{MISSING, READ, Seat, refuse, stop};
use file_members::value::fault_of;
use file_members::want::is_at_schema;
use json_lex::byte::is_digit;
use json_lex::text::Kept;
use json_tokens::{BROKEN, END, Token};

fn begins_word(head: u8) -> bool
    ensures { result ≡ begins_word head }
{
    head == b't' || head == b'f' || head == b'n'
}

// Whether a byte begins a text, a number or a word.
#[tactic(auto, unfolding(crate::specs::Walked::stands_alone))]
fn stands_alone(head: u8) -> bool
    ensures { result ≡ stands_alone head }
{
    head == b'"' || head == b'-' || is_digit(head) || begins_word(head)
}

fn begins_number(head: u8) -> bool
    ensures { result ≡ begins_number head }
{
    head == b'-' || is_digit(head)
}

// The magnitude of a whole number; 0 of everything else.
fn size_kept(head: u8, integer: bool, magnitude: u64) -> u64
    ensures { result ≡ size_kept head integer magnitude }
{
    if begins_number(head) {
        if integer {
            return magnitude;
        }
    }
    0
}

// Where what is wrong with a value stands: at its own first byte, or at that of the schema around.
pub fn own_place(want: usize, schema: usize, first: usize) -> usize
    ensures { result ≡ stands_at (stands_at_schema want) schema first }
{
    if is_at_schema(want) {
        return schema;
    }
    first
}

// What is wrong with a whole text, number or word; 0 where nothing is.
fn fault(kept: &Kept, want: usize, t: Token) -> usize
    ensures { FaultSaid kept.now want t result }
{
    fault_of(want, kept, t.head, t.len, t.integer, t.magnitude)
}

// A whole text, number or word is judged and held.
fn hold(
    kept: &Kept,
    cells: &mut Cells,
    want: usize,
    schema: usize,
    base: usize,
    t: Token,
    seat: Seat,
) -> Seat
    requires { (base ≤ 33554432) × (t.first < t.after) }
    ensures { ScalarHeld kept.now want schema base t seat cells.old result cells.new }
{
    let mut s = refuse(fault(kept, want, t), own_place(want, schema, t.first), seat);
    s.from = t.after;
    s.state = READ;
    s.count = 0;
    if want != 0 {
        put_value(
            cells,
            base,
            t.first as u64 + 1,
            size_kept(t.head, t.integer, t.magnitude),
        );
    }
    s
}

fn not_json(place: usize, seat: Seat) -> Seat
    ensures { result ≡ counting 0 (stopped 27 place 2 seat) }
{
    let mut s = stop(27, place, MISSING, seat);
    s.count = 0;
    s
}

// What begins no list and no object: a whole text, number or word is judged and held; and the reader stops at anything else.
pub fn scalar(
    bytes: &[u8],
    kept: &Kept,
    cells: &mut Cells,
    want: usize,
    schema: usize,
    base: usize,
    t: Token,
    seat: Seat,
) -> Seat
    requires { (TokenAt bytes.now seat.from t kept.now) × ((base ≤ 33554432) × (seat.from ≤ length bytes.now)) }
    ensures { ScalarRead bytes.now want schema base seat cells.old result cells.new }
{
    if t.state == END {
        return not_json(bytes.len(), seat);
    }
    if t.state == BROKEN {
        return not_json(t.stop, seat);
    }
    if stands_alone(t.head) {
        return hold(kept, cells, want, schema, base, t, seat);
    }
    not_json(t.first, seat)
}
