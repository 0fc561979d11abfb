// Dates as text, as `2025-03-12 10:00:00.123`: written, and read from what someone asks for.
ghost use Rattle.std.specs.Prelude.{◌≡◌, ◌<◌, ◌≤◌, IfSome, length};

use crate::clock::is_clock;
use crate::date::{Date, Day, Timed, day_of, time_of};
use crate::shift::{ALL, since_epoch, since_year_one};
use records::counters::Time;
use tokens::field::signed_of;
use tokens::token::token_of;

pub const DATE_TEXT: usize = 23;

pub type Shape = [u8; DATE_TEXT];

// A `0` stands for any digit.
const SHAPE: Shape = *b"0000-00-00 00:00:00.000";

// A date to the second, and to the millisecond if that is not 0.
#[derive(Clone, Copy)]
pub struct DateText {
    pub bytes: Shape,
    pub len: usize,
}

// The last two digits of the number.
fn put_two(text: &mut Shape, at: usize, number: u64)
    requires { at < 22 }
{
    text[at] = b'0' + (number / 10 % 10) as u8;
    text[at + 1] = b'0' + (number % 10) as u8;
}

pub fn text_of(date: Date) -> DateText {
    let mut bytes = SHAPE;
    put_two(&mut bytes, 0, date.year / 100);
    put_two(&mut bytes, 2, date.year);
    put_two(&mut bytes, 5, date.month);
    put_two(&mut bytes, 8, date.day);
    put_two(&mut bytes, 11, date.hour);
    put_two(&mut bytes, 14, date.minute);
    put_two(&mut bytes, 17, date.second);
    put_two(&mut bytes, 20, date.millisecond / 10);
    put_two(&mut bytes, 21, date.millisecond);
    let len = if date.millisecond == 0 { 19 } else { 23 };
    DateText { bytes, len }
}

// Between the day and the hour a `T` may stand too.
fn may_stand(place: u8, byte: u8) -> bool {
    match place {
        b'0' => byte.is_ascii_digit(),
        b' ' => byte == b' ' || byte == b'T',
        _ => byte == place,
    }
}

// After the day, the minute, the second or the millisecond.
fn may_end(len: usize) -> bool {
    len == 10 || len == 16 || len == 19 || len == DATE_TEXT
}

fn has_shape(text: &[u8]) -> bool {
    may_end(text.len())
        && text
            .iter()
            .zip(&SHAPE)
            .all(|(byte, place)| may_stand(*place, *byte))
}

fn digit(byte: u8) -> u64
    ensures { result < 10 }
{
    if byte.is_ascii_digit() {
        u64::from(byte - b'0')
    } else {
        0
    }
}

fn digit_at(text: &[u8], at: usize) -> u64
    ensures { result < 10 }
{
    match text.get(at) {
        Some(byte) => digit(*byte),
        None => 0,
    }
}

// 0 where the text is shorter.
fn two_at(text: &[u8], at: usize) -> u64
    requires { at < 22 }
    ensures { result < 100 }
{
    digit_at(text, at) * 10 + digit_at(text, at + 1)
}

// The date that a text of the shape writes; what it leaves out is 0.
fn written(text: &[u8]) -> Date {
    Date {
        year: two_at(text, 0) * 100 + two_at(text, 2),
        month: two_at(text, 5),
        day: two_at(text, 8),
        hour: two_at(text, 11),
        minute: two_at(text, 14),
        second: two_at(text, 17),
        millisecond: two_at(text, 20) * 10 + digit_at(text, 22),
    }
}

// How far the clock of a date is from UTC's, and where the text of the date ends.
#[derive(Clone, Copy)]
struct Offset {
    is_ahead: bool,
    milliseconds: u64,
    at: usize,
    ghost below_a_day: { milliseconds < 86400000 },
}

fn utc(at: usize) -> Offset
    ensures { (result.at ≡ at) × (result.milliseconds ≡ 0) }
{
    Offset {
        is_ahead: false,
        milliseconds: 0,
        at,
    }
}

// As `+02:00`.
fn has_offset_shape(zone: &[u8]) -> bool {
    match zone {
        [sign, a, b, b':', c, d] => {
            (*sign == b'+' || *sign == b'-')
                && a.is_ascii_digit()
                && b.is_ascii_digit()
                && c.is_ascii_digit()
                && d.is_ascii_digit()
        }
        _ => false,
    }
}

// Ahead of UTC or behind it; none above 23:59.
#[tactic(auto, using(crate::proofs::Dates::clock_parts))]
fn written_offset(zone: &[u8], is_ahead: bool, at: usize) -> Option<Offset>
    ensures { IfSome result (λ offset. offset.at ≡ at) }
{
    let hours = two_at(zone, 1);
    let minutes = two_at(zone, 4);
    if !is_clock(hours, minutes, 0, 0) {
        return None;
    }
    Some(Offset {
        is_ahead,
        milliseconds: (hours * 60 + minutes) * 60000,
        at,
    })
}

// After a time of day a `Z` may stand, for UTC, or how far its clock is from UTC's; none if that is above 23:59.
fn offset_of(text: &[u8]) -> Option<Offset>
    ensures { IfSome result (λ offset. offset.at ≤ length text.now) }
{
    let n = text.len();
    if n > 16 && text[n - 1] == b'Z' {
        return Some(utc(n - 1));
    }
    if n >= 22 {
        let at = n - 6;
        let zone = &text[at..];
        if has_offset_shape(zone) {
            return written_offset(zone, text[at] == b'+', at);
        }
    }
    Some(utc(n))
}

// The time in UTC of a clock at this offset; none outside the years 1 to 9999.
fn in_utc(time: Time, offset: Offset) -> Option<Time> {
    let since = since_year_one(time);
    if !since.is_within {
        return None;
    }
    let clock = if offset.is_ahead {
        since.milliseconds.checked_sub(offset.milliseconds)?
    } else {
        since.milliseconds.checked_add(offset.milliseconds)?
    };
    if clock >= ALL {
        return None;
    }
    Some(since_epoch(clock))
}

// The first moment of a day, a minute, a second or a millisecond, by a clock at this offset.
fn time_of_date_text(text: &[u8], offset: Offset) -> Option<Time> {
    if !has_shape(text) {
        return None;
    }
    let timed = time_of(written(text));
    if !timed.is_timed {
        return None;
    }
    in_utc(timed.time, offset)
}

// No number has a `-` at the fifth place, and every date has one.
fn may_be_date(text: &[u8]) -> bool {
    text.len() >= 10 && text[4] == b'-'
}

// The time of a date, alone or with a time of day.
fn time_of_date(text: &[u8]) -> Option<Time> {
    let offset = offset_of(text)?;
    time_of_date_text(&text[..offset.at], offset)
}

// Milliseconds since 1970, or a date, alone or with a time of day.
pub fn time_of_text(text: &[u8]) -> Timed {
    let time = if may_be_date(text) {
        time_of_date(text)
    } else {
        signed_of(token_of(text)).map(Time)
    };
    match time {
        Some(time) => Timed {
            is_timed: true,
            time,
        },
        None => Timed {
            is_timed: false,
            time: Time(0),
        },
    }
}

// A date alone stands for its whole day.
pub fn day_of_text(text: &[u8]) -> Day {
    let date = if text.len() == 10 && has_shape(text) {
        written(text)
    } else {
        Date::blank()
    };
    day_of(date.year, date.month, date.day)
}

pub const NO_FORM: usize = 0;

pub const NO_OFFSET: usize = 1;

pub const NO_DATE: usize = 2;

// Why a text is no moment: it has no form that is read, its offset is above 23:59, or the calendar does not have its date and time of day.
pub fn fault_of_text(text: &[u8]) -> usize {
    if !may_be_date(text) {
        return NO_FORM;
    }
    match offset_of(text) {
        None => NO_OFFSET,
        Some(offset) => if has_shape(&text[..offset.at]) {
            NO_DATE
        } else {
            NO_FORM
        },
    }
}
