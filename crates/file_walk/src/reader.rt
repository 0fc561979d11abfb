// A value, as far as it goes: what is wrong with it, and what its cells hold.
ghost use Rattle.std.specs.Prelude.{◌≡◌, ◌<◌};
ghost use Rattle.json_rule.specs.Defects.{stands_at};
ghost use Rattle.file_cells.specs.Wants.{stands_at_schema, named_at};
ghost use Rattle.file_walk.specs.Seats.{refused, moved_to, counting, stopped};
ghost use Rattle.file_walk.specs.Outcomes.{misplaced_number};
ghost use Rattle.file_walk.specs.Named.{MayNamed, NamedTurned, MayEnterNamed};
ghost use Rattle.file_walk.specs.Members.{record_flag, inner_place, lack_number, MayMember, MemberTurned};
ghost use Rattle.file_walk.specs.Walked.{MayWalk, Walked, MayEnter, ListWalked, MayTurn, ItemTurned, ObjectWalked};

use crate::cells::{Cells, item_cells, put_count};
use crate::name::{NO_RECORD, name};
use crate::names::{NAMES, Places, named_cells, put_name, read_name};
use crate::scalar::{own_place, scalar};
use crate::seat::{
    GOES_ON, MISSING, READ, Seat, after_one, begun, counted, is_mark, refuse, settled, stop,
};
use file_members::cell::offset_of;
use file_members::kind::HELD_SCHEMA;
use file_members::seen::{Seen, lacks};
use file_members::want::{item_of, named_of, record_of, room_of, want_of};
use json_lex::text::Kept;
use json_tokens::next;

// So many brackets may be open.
const DEEPEST: usize = 16;

// The number of a list that stands where none is to be.
fn misplaced_number(want: usize, each: usize) -> usize
    ensures { result ≡ misplaced_number want each }
{
    if want == 0 {
        return 0;
    }
    if each == 0 {
        return 28;
    }
    0
}

// A list that stands where none is to be.
fn placed(want: usize, each: usize, schema: usize, first: usize, seat: Seat) -> Seat
    ensures { result ≡ refused (misplaced_number want each) (stands_at (stands_at_schema want) schema first) seat }
{
    refuse(
        misplaced_number(want, each),
        own_place(want, schema, first),
        seat,
    )
}

// A record, told as what an element is to be.
fn record_flag(kind: usize) -> usize
    ensures { result ≡ record_flag kind }
{
    if kind >= NO_RECORD {
        return 0;
    }
    1
}

// The place of the schema around what a record has: its own, where it is one.
fn inner_place(kind: usize, first: usize, schema: usize) -> usize
    ensures { result ≡ inner_place kind first schema }
{
    if kind == HELD_SCHEMA {
        return first;
    }
    schema
}

// A record that was closed lacks a member that it must have.
fn lack_number(version: usize, kind: usize, state: usize, seen: &Seen) -> usize
    ensures { result ≡ lack_number version kind state seen.now }
{
    if state != READ {
        return 0;
    }
    if kind >= NO_RECORD {
        return 0;
    }
    if lacks(version, kind, seen) {
        return 30;
    }
    0
}

// Behind a bracket.
fn entered(from: usize, seat: Seat) -> Seat
    ensures { result ≡ moved_to from seat.state seat }
{
    let mut s = seat;
    s.from = from;
    s
}

// The bracket that is one too many.
fn too_deep(place: usize, seat: Seat) -> Seat
    ensures { result ≡ counting 0 (stopped 29 place 2 seat) }
{
    let mut s = stop(29, place, MISSING, seat);
    s.count = 0;
    s
}

// A value from where the seat stands, inside so many open brackets: `want` says what it is to be, `schema` is the place of the schema around it, and `base` the
// first of its cells.
#[cycle(held_item_list_member_named_object_under_name_value)]
pub fn value(
    bytes: &[u8],
    kept: &mut Kept,
    cells: &mut Cells,
    version: usize,
    want: usize,
    schema: usize,
    base: usize,
    depth: usize,
    seat: Seat,
) -> Seat
    requires { MayWalk bytes.now want base depth seat }
    ensures { Walked bytes.now version want schema base depth seat cells.old result cells.new }
{
    let t = next(bytes, seat.from, kept);
    if is_mark(b'[', t) {
        if depth >= DEEPEST {
            return too_deep(t.first, seat);
        }
        return list(
            bytes,
            kept,
            cells,
            version,
            want,
            schema,
            base,
            depth + 1,
            t.first,
            entered(t.after, seat),
        );
    }
    if is_mark(b'{', t) {
        if depth >= DEEPEST {
            return too_deep(t.first, seat);
        }
        return object(
            bytes,
            kept,
            cells,
            version,
            want,
            schema,
            base,
            depth + 1,
            t.first,
            entered(t.after, seat),
        );
    }
    scalar(bytes, kept, cells, want, schema, base, t, seat)
}

// A list, behind its first bracket.
#[cycle(held_item_list_member_named_object_under_name_value)]
fn list(
    bytes: &[u8],
    kept: &mut Kept,
    cells: &mut Cells,
    version: usize,
    want: usize,
    schema: usize,
    base: usize,
    depth: usize,
    first: usize,
    seat: Seat,
) -> Seat
    requires { MayEnter bytes.now want base depth seat }
    ensures { ListWalked bytes.now version want schema base depth first seat cells.old result cells.new }
{
    let each = item_of(want);
    let room = room_of(want);
    let t = next(bytes, seat.from, kept);
    let mut s = begun(b']', t, placed(want, each, schema, first, seat));
    while s.state == GOES_ON {
        s = item(
            bytes, kept, cells, version, each, room, schema, base, depth, first, s,
        );
    }
    put_count(cells, each, base, s);
    s.count = 0;
    s
}

// An element, and what stands behind it.
#[cycle(held_item_list_member_named_object_under_name_value)]
fn item(
    bytes: &[u8],
    kept: &mut Kept,
    cells: &mut Cells,
    version: usize,
    each: usize,
    room: usize,
    schema: usize,
    base: usize,
    depth: usize,
    first: usize,
    seat: Seat,
) -> Seat
    requires { MayTurn bytes.now each room base depth seat }
    ensures { ItemTurned bytes.now version each room schema base depth first seat cells.old result cells.new }
{
    let place = item_cells(base, each, seat.count);
    let v = value(
        bytes, kept, cells, version, each, schema, place, depth, seat,
    );
    let s = counted(each, room, first, seat.count, v);
    if s.state != READ {
        return s;
    }
    let t = next(bytes, s.from, kept);
    after_one(b']', bytes.len(), t, s)
}

// An object, behind its first bracket.
#[cycle(held_item_list_member_named_object_under_name_value)]
fn object(
    bytes: &[u8],
    kept: &mut Kept,
    cells: &mut Cells,
    version: usize,
    want: usize,
    schema: usize,
    base: usize,
    depth: usize,
    first: usize,
    seat: Seat,
) -> Seat
    requires { (MayEnter bytes.now want base depth seat) × (first < seat.from) }
    ensures { ObjectWalked bytes.now version want schema base depth first seat cells.old result cells.new }
{
    if named_of(want) == 0 {
        return held(
            bytes, kept, cells, version, want, schema, base, depth, first, seat,
        );
    }
    named(
        bytes, kept, cells, version, want, schema, base, depth, first, seat,
    )
}

// An object that is no object under names of its own.
#[cycle(held_item_list_member_named_object_under_name_value)]
fn held(
    bytes: &[u8],
    kept: &mut Kept,
    cells: &mut Cells,
    version: usize,
    want: usize,
    schema: usize,
    base: usize,
    depth: usize,
    first: usize,
    seat: Seat,
) -> Seat
    requires { (MayEnter bytes.now want base depth seat) × (named_at want ≡ 0) }
    ensures { ObjectWalked bytes.now version want schema base depth first seat cells.old result cells.new }
{
    let kind = record_of(want);
    let inner = inner_place(kind, first, schema);
    let t = next(bytes, seat.from, kept);
    let mut s = begun(
        b'}',
        t,
        placed(want, record_flag(kind), schema, first, seat),
    );
    let mut seen = [false; 23];
    while s.state == GOES_ON {
        s = member(
            bytes, kept, cells, &mut seen, version, kind, inner, base, depth, s,
        );
    }
    refuse(lack_number(version, kind, s.state, &seen), first, s)
}

// A member, and what stands behind it.
#[cycle(held_item_list_member_named_object_under_name_value)]
fn member(
    bytes: &[u8],
    kept: &mut Kept,
    cells: &mut Cells,
    seen: &mut Seen,
    version: usize,
    kind: usize,
    schema: usize,
    base: usize,
    depth: usize,
    seat: Seat,
) -> Seat
    requires { MayMember bytes.now base depth seat }
    ensures { MemberTurned bytes.now version kind schema base depth seat cells.old seen.old result cells.new seen.new }
{
    let e = name(bytes, kept, seen, version, kind, seat);
    if e.state != GOES_ON {
        return e;
    }
    let v = value(
        bytes,
        kept,
        cells,
        version,
        want_of(version, e.spot),
        schema,
        base + offset_of(e.spot),
        depth,
        e,
    );
    let s = settled(seat.count, e.count, v);
    if s.state != READ {
        return s;
    }
    let t = next(bytes, s.from, kept);
    after_one(b'}', bytes.len(), t, s)
}

// An object under names of its own, as `refs` is, behind its first bracket, which stands at `first`.
#[cycle(held_item_list_member_named_object_under_name_value)]
fn named(
    bytes: &[u8],
    kept: &mut Kept,
    cells: &mut Cells,
    version: usize,
    want: usize,
    schema: usize,
    base: usize,
    depth: usize,
    first: usize,
    seat: Seat,
) -> Seat
    requires { MayEnterNamed bytes.now want base depth first seat }
    ensures { ObjectWalked bytes.now version want schema base depth first seat cells.old result cells.new }
{
    let each = named_of(want);
    let room = room_of(want);
    let mut places: Places = [0; NAMES];
    let t = next(bytes, seat.from, kept);
    let mut s = begun(b'}', t, seat);
    while s.state == GOES_ON {
        s = under_name(
            bytes,
            kept,
            cells,
            &mut places,
            version,
            each,
            room,
            schema,
            base,
            depth,
            first,
            s,
        );
    }
    put_count(cells, each, base, s);
    s.count = 0;
    s
}

// A name, its value, and what stands behind it. The room is judged at the name, so nothing is said of it behind the value.
#[cycle(held_item_list_member_named_object_under_name_value)]
fn under_name(
    bytes: &[u8],
    kept: &mut Kept,
    cells: &mut Cells,
    places: &mut Places,
    version: usize,
    each: usize,
    room: usize,
    schema: usize,
    base: usize,
    depth: usize,
    first: usize,
    seat: Seat,
) -> Seat
    requires { MayNamed bytes.now each room base depth first seat }
    ensures { NamedTurned bytes.now version each room schema base depth first seat cells.old places.old result cells.new places.new }
{
    let u = read_name(bytes, kept, places, room, first, seat);
    if u.state != GOES_ON {
        return u;
    }
    let spot = named_cells(base, each, seat.count);
    let v = value(
        bytes,
        kept,
        cells,
        version,
        each,
        schema,
        spot + 2,
        depth,
        u,
    );
    put_name(cells, spot, u.count, v);
    let s = counted(0, room, first, seat.count, v);
    if s.state != READ {
        return s;
    }
    let t = next(bytes, s.from, kept);
    after_one(b'}', bytes.len(), t, s)
}
