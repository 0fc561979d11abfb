// How brackets nest: what may come next, and which are open.
ghost use Rattle.std.specs.Prelude.{◌≡◌};
ghost use Rattle.json_members.specs.Nesting.{is_full, is_outside, is_in_object, with_list, with_object, with_one, closes_list, closes_object, closes_at, may_begin};

// Kept: these are numbers, as Nesting of specs/ says them of a slot of the judge.
// What may come next: a value; one, or the end of a list; a name; one, or the end of an object; a colon; a comma, or the end; nothing.
pub const VALUE: usize = 0;

pub const FIRST_ITEM: usize = 1;

pub const NAME: usize = 2;

pub const FIRST_NAME: usize = 3;

pub const COLON: usize = 4;

pub const AFTER: usize = 5;

pub const STOPPED: usize = 6;

// The open brackets are a number: a bit for each, the innermost the lowest, 0 for a list and 1 for an object; above them stands a 1.
// With sixteen open brackets the number is this or above.
const FULL: usize = 65536;

pub fn is_full(kinds: usize) -> bool
    ensures { result ≡ is_full kinds }
{
    kinds >= FULL
}

pub fn is_outside(kinds: usize) -> bool
    ensures { result ≡ is_outside kinds }
{
    kinds < 2
}

pub fn is_in_object(kinds: usize) -> bool
    ensures { result ≡ is_in_object kinds }
{
    kinds % 2 == 1
}

// With one more, which is a list or an object; less than sixteen are open.
pub fn with_list(kinds: usize) -> usize
    ensures { result ≡ with_list kinds }
{
    kinds % FULL * 2
}

pub fn with_object(kinds: usize) -> usize
    ensures { result ≡ with_object kinds }
{
    kinds % FULL * 2 + 1
}

// One more open bracket in what is passed over; there are never more than sixteen.
pub fn with_one(passed: usize) -> usize
    ensures { result ≡ with_one passed }
{
    passed % FULL + 1
}

#[tactic(auto, unfolding(crate::specs::Nesting::closes_list))]
fn closes_list(expect: usize, kinds: usize) -> bool
    ensures { result ≡ closes_list expect kinds }
{
    if expect == FIRST_ITEM {
        return true;
    }
    if expect != AFTER {
        return false;
    }
    if is_outside(kinds) {
        return false;
    }
    !is_in_object(kinds)
}

#[tactic(auto, unfolding(crate::specs::Nesting::closes_object))]
fn closes_object(expect: usize, kinds: usize) -> bool
    ensures { result ≡ closes_object expect kinds }
{
    if expect == FIRST_NAME {
        return true;
    }
    if expect != AFTER {
        return false;
    }
    if is_outside(kinds) {
        return false;
    }
    is_in_object(kinds)
}

// Whether a byte closes the innermost list or object: at once behind its first bracket, or behind a value.
#[tactic(auto, unfolding(crate::specs::Nesting::closes_at))]
pub fn closes(expect: usize, kinds: usize, head: u8) -> bool
    ensures { result ≡ closes_at expect kinds head }
{
    match head {
        b']' => closes_list(expect, kinds),
        b'}' => closes_object(expect, kinds),
        _ => false,
    }
}

// Whether a text, a number or a word that begins with this byte may come next.
#[tactic(auto, unfolding(crate::specs::Nesting::may_begin))]
pub fn may_begin(expect: usize, head: u8) -> bool
    ensures { result ≡ may_begin expect head }
{
    match expect {
        VALUE | FIRST_ITEM => true,
        NAME | FIRST_NAME => head == b'"',
        _ => false,
    }
}
