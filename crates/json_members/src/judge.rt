// One whole lexeme, judged: what it does to the nesting, to the open lists and objects, and to the least refusal.
// A lexeme comes as its first byte and the place of that, with the length and the bytes of a text, with whether a number is an integer below 2^64, and its magnitude.
ghost use Rattle.std.specs.Prelude.{◌≡◌};
ghost use Rattle.json_members.specs.Model.{told, after, passing_in, on_list, on_object, on_bracket, refusing_foreign, knowing, on_action, on_wanted, on_scalar, is_scalar, on_value, unlisted_in, known_in, on_known, on_member, on_name, on_colon, leaving, on_close, on_next, on_comma, taking, taking_broken, taking_end};

use crate::frames::{count, enter, enter_list, first_of, refused_at};
use crate::kind::{NO_KIND, action_kind};
use crate::name::member_of;
use crate::nest::{
    AFTER, COLON, FIRST_ITEM, FIRST_NAME, NAME, STOPPED, VALUE, closes, is_full, is_in_object,
    is_outside, may_begin, with_list, with_object, with_one,
};
use crate::refusal::{NOT_JSON, NOT_PUBLISHED, OVER_CAPACITY, refuse, stop};
use crate::row::{Row, is_foreign, row_of};
use crate::seen::{lacks, open};
use crate::spot::{ACTION, ANYTHING, SPEC_IDS, around, is_list, is_object, item_of, value_of};
use crate::state::{
    EXPECT, Judge, KIND, KINDS, PASSED, WANTED, WITHIN, is_seen, kind_of, named_at, see,
};
use crate::value::fault_of;
use json_lex::text::Kept;

// ---- lists and objects

// A bracket in what is passed over, or where no such list or object is wanted.
#[tactic(auto, unfolding(crate::specs::Model::passing_in))]
fn pass_in(judge: &mut Judge, first: usize)
    ensures { judge.new ≡ passing_in first judge.old }
{
    let wanted = judge[WANTED];
    if wanted != ANYTHING {
        let place = refused_at(judge, wanted, first);
        refuse(judge, NOT_PUBLISHED, place);
    }
    judge[WANTED] = ANYTHING;
    judge[PASSED] = with_one(judge[PASSED]);
}

#[tactic(auto, unfolding(crate::specs::Model::on_list))]
fn on_list(judge: &mut Judge, first: usize)
    ensures { judge.new ≡ on_list first judge.old }
{
    let wanted = judge[WANTED];
    judge[EXPECT] = FIRST_ITEM;
    judge[KINDS] = with_list(judge[KINDS]);
    if is_list(wanted) {
        enter_list(judge, first);
        judge[WANTED] = item_of(wanted);
    } else {
        pass_in(judge, first);
    }
}

#[tactic(auto, unfolding(crate::specs::Model::on_object))]
fn on_object(judge: &mut Judge, first: usize)
    ensures { judge.new ≡ on_object first judge.old }
{
    let wanted = judge[WANTED];
    judge[EXPECT] = FIRST_NAME;
    judge[KINDS] = with_object(judge[KINDS]);
    if is_object(wanted) {
        open(judge, wanted);
        enter(judge, first);
    } else {
        pass_in(judge, first);
    }
}

#[tactic(auto, unfolding(crate::specs::Model::on_bracket))]
fn on_bracket(judge: &mut Judge, head: u8, first: usize)
    ensures { judge.new ≡ on_bracket head first judge.old }
{
    if is_full(judge[KINDS]) {
        stop(judge, OVER_CAPACITY, first);
        return;
    }
    count(judge);
    if head == b'[' {
        on_list(judge, first);
    } else {
        on_object(judge, first);
    }
}

// ---- texts, numbers and words

// A name that was seen before the action is unknown if it stands in other rows only.
#[tactic(auto, unfolding(crate::specs::Model::refusing_foreign))]
fn refuse_foreign(judge: &mut Judge, row: Row, spot: usize)
    ensures { judge.new ≡ refusing_foreign row spot judge.old }
{
    if is_foreign(row, spot) {
        if is_seen(judge, spot) {
            let place = named_at(judge, spot);
            refuse(judge, NOT_PUBLISHED, place);
        }
    }
}

// The action is known, and with it the row of the update.
fn know(judge: &mut Judge, kind: u8)
    ensures { judge.new ≡ knowing kind judge.old }
{
    let row = row_of(kind);
    judge[KIND] = kind as usize;
    for spot in ACTION..=SPEC_IDS {
        refuse_foreign(judge, row, spot);
    }
}

// The action of the open update.
#[tactic(auto, unfolding(crate::specs::Model::on_action))]
fn on_action(judge: &mut Judge, kept: &Kept, head: u8, first: usize, len: usize)
    ensures { judge.new ≡ on_action kept.now head first len judge.old }
{
    if head == b'"' {
        let kind = action_kind(kept, len);
        if kind != NO_KIND {
            know(judge, kind);
            return;
        }
    }
    refuse(judge, NOT_PUBLISHED, first);
}

// A value where one is wanted that is no action: its spot, if it is right.
#[tactic(auto, unfolding(crate::specs::Model::on_fault))]
fn on_wanted(
    judge: &mut Judge,
    kept: &Kept,
    wanted: usize,
    head: u8,
    first: usize,
    len: usize,
    integer: bool,
    magnitude: u64,
) -> usize
    ensures { after judge.new result ≡ on_wanted wanted (told kept.now head first len integer magnitude) judge.old }
{
    let fault = fault_of(wanted, kept, head, len, integer, magnitude);
    if fault == 0 {
        return wanted;
    }
    let place = refused_at(judge, wanted, first);
    refuse(judge, fault, place);
    ANYTHING
}

#[tactic(auto, unfolding(crate::specs::Model::on_scalar))]
fn on_scalar(
    judge: &mut Judge,
    kept: &Kept,
    head: u8,
    first: usize,
    len: usize,
    integer: bool,
    magnitude: u64,
) -> usize
    ensures { after judge.new result ≡ on_scalar (told kept.now head first len integer magnitude) judge.old }
{
    let wanted = judge[WANTED];
    judge[EXPECT] = AFTER;
    count(judge);
    if wanted == ANYTHING {
        return ANYTHING;
    }
    if wanted == ACTION {
        on_action(judge, kept, head, first, len);
        return ANYTHING;
    }
    on_wanted(judge, kept, wanted, head, first, len, integer, magnitude)
}

#[tactic(auto, unfolding(json_rule::specs::Lexemes::is_digit, crate::specs::Model::is_scalar))]
fn is_scalar(head: u8) -> bool
    ensures { result ≡ is_scalar head }
{
    match head {
        b'"' | b'-' | b'0'..=b'9' | b't' | b'f' | b'n' => true,
        _ => false,
    }
}

#[tactic(auto, unfolding(crate::specs::Model::on_bare, crate::specs::Model::on_value))]
fn on_value(
    judge: &mut Judge,
    kept: &Kept,
    head: u8,
    first: usize,
    len: usize,
    integer: bool,
    magnitude: u64,
) -> usize
    ensures { after judge.new result ≡ on_value (told kept.now head first len integer magnitude) judge.old }
{
    if is_scalar(head) {
        return on_scalar(judge, kept, head, first, len, integer, magnitude);
    }
    match head {
        b'[' | b'{' => on_bracket(judge, head, first),
        _ => stop(judge, NOT_JSON, first),
    }
    ANYTHING
}

// ---- names

// Whether a member stands in other rows only than the action's.
fn is_unlisted(judge: &Judge, spot: usize) -> bool
    ensures { result ≡ unlisted_in judge.now spot }
{
    is_foreign(row_of(kind_of(judge)), spot)
}

// The spot of a name in the open object; `ANYTHING` where it is unknown or repeated there.
fn known(judge: &Judge, kept: &Kept, len: usize) -> usize
    ensures { result ≡ known_in judge.now kept.now len }
{
    let spot = member_of(judge[WITHIN], kept, len);
    if is_seen(judge, spot) {
        return ANYTHING;
    }
    spot
}

// A name that is known: it is refused where it stands in other rows only. Its value is judged all the same: what is wrong with that stands behind the name.
#[tactic(auto, unfolding(crate::specs::Model::on_known))]
fn on_known(judge: &mut Judge, spot: usize, first: usize)
    ensures { judge.new ≡ on_known spot first judge.old }
{
    see(judge, spot, first);
    if is_unlisted(judge, spot) {
        refuse(judge, NOT_PUBLISHED, first);
    }
}

#[tactic(auto, unfolding(crate::specs::Model::on_spot))]
fn on_member(judge: &mut Judge, kept: &Kept, first: usize, len: usize)
    ensures { judge.new ≡ on_member kept.now first len judge.old }
{
    let spot = known(judge, kept, len);
    judge[WANTED] = value_of(spot);
    if spot == ANYTHING {
        refuse(judge, NOT_PUBLISHED, first);
    } else {
        on_known(judge, spot, first);
    }
}

#[tactic(auto, unfolding(crate::specs::Model::on_name))]
fn on_name(judge: &mut Judge, kept: &Kept, head: u8, first: usize, len: usize)
    ensures { judge.new ≡ on_name kept.now head first len judge.old }
{
    if head != b'"' {
        stop(judge, NOT_JSON, first);
        return;
    }
    judge[EXPECT] = COLON;
    if judge[PASSED] == 0 {
        on_member(judge, kept, first, len);
    }
}

#[tactic(auto, unfolding(crate::specs::Model::on_colon))]
fn on_colon(judge: &mut Judge, head: u8, first: usize)
    ensures { judge.new ≡ on_colon head first judge.old }
{
    if head == b':' {
        judge[EXPECT] = VALUE;
    } else {
        stop(judge, NOT_JSON, first);
    }
}

// ---- ends

// A list or an object that is judged is closed: its spot.
#[tactic(auto, unfolding(crate::specs::Model::leaving))]
fn leave(judge: &mut Judge) -> usize
    ensures { after judge.new result ≡ leaving judge.old }
{
    let spot = judge[WITHIN];
    if lacks(judge, spot) {
        let first = first_of(judge, spot);
        refuse(judge, NOT_PUBLISHED, first);
    }
    judge[WITHIN] = around(spot);
    spot
}

#[tactic(auto, unfolding(crate::specs::Model::on_close))]
fn on_close(judge: &mut Judge) -> usize
    ensures { after judge.new result ≡ on_close judge.old }
{
    let passed = judge[PASSED];
    judge[EXPECT] = AFTER;
    judge[KINDS] = judge[KINDS] / 2;
    if passed == 0 {
        return leave(judge);
    }
    judge[PASSED] = passed - 1;
    ANYTHING
}

// What follows a comma: a name in an object, an element in a list.
#[tactic(auto, unfolding(crate::specs::Model::on_next))]
fn on_next(judge: &mut Judge)
    ensures { judge.new ≡ on_next judge.old }
{
    if is_in_object(judge[KINDS]) {
        judge[EXPECT] = NAME;
        return;
    }
    judge[EXPECT] = VALUE;
    if judge[PASSED] == 0 {
        judge[WANTED] = item_of(judge[WITHIN]);
    }
}

#[tactic(auto, unfolding(crate::specs::Model::on_comma))]
fn on_comma(judge: &mut Judge, head: u8, first: usize)
    ensures { judge.new ≡ on_comma head first judge.old }
{
    if head != b',' {
        stop(judge, NOT_JSON, first);
        return;
    }
    if is_outside(judge[KINDS]) {
        stop(judge, NOT_JSON, first);
        return;
    }
    on_next(judge);
}

// ---- all

// One more whole lexeme. What it makes whole is told: the spot of a right value, or of a list or an object that is closed.
#[tactic(auto, unfolding(crate::specs::Model::on_expected, crate::specs::Model::taking))]
pub fn take(
    judge: &mut Judge,
    kept: &Kept,
    head: u8,
    first: usize,
    len: usize,
    integer: bool,
    magnitude: u64,
) -> usize
    ensures { after judge.new result ≡ taking (told kept.now head first len integer magnitude) judge.old }
{
    let expect = judge[EXPECT];
    if closes(expect, judge[KINDS], head) {
        return on_close(judge);
    }
    match expect {
        VALUE | FIRST_ITEM => return on_value(judge, kept, head, first, len, integer, magnitude),
        NAME | FIRST_NAME => on_name(judge, kept, head, first, len),
        COLON => on_colon(judge, head, first),
        AFTER => on_comma(judge, head, first),
        _ => {}
    }
    ANYTHING
}

// A lexeme that a byte broke, or the end of the input. One that may not begin here is refused at its first byte.
#[tactic(auto, unfolding(crate::specs::Model::taking_broken))]
pub fn take_broken(judge: &mut Judge, head: u8, first: usize, place: usize)
    ensures { judge.new ≡ taking_broken head first place judge.old }
{
    let expect = judge[EXPECT];
    if expect == STOPPED {
        return;
    }
    if may_begin(expect, head) {
        stop(judge, NOT_JSON, place);
    } else {
        stop(judge, NOT_JSON, first);
    }
}

// The end of the input, between lexemes: the list must be closed there.
#[tactic(auto, unfolding(crate::specs::Model::taking_end))]
pub fn take_end(judge: &mut Judge, len: usize)
    ensures { judge.new ≡ taking_end len judge.old }
{
    let expect = judge[EXPECT];
    if expect == STOPPED {
        return;
    }
    if expect == AFTER {
        if is_outside(judge[KINDS]) {
            return;
        }
    }
    stop(judge, NOT_JSON, len);
}
