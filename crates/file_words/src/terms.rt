// The terms of a run as words: `--clock 2025-04-09T10:01:00Z --tolerance 60000 --file NAME --limit TEXT --office 1`. What is left out is as in a case that
// leaves it out.
ghost use Rattle.slot_bounds.specs.Counted.{Counted};

use crate::option::{Switch, has, place_behind, read_behind};
use calendar::date::Timed;
use calendar::text::time_of_text;
use case_reader::limit_text::{LIMIT_TEXT, LimitText};
use command::read_word;
use kept_text::limit::keep_byte;
use records::capacities::TEXT;
use records::counters::{Age, Time};
use records::run::{DEFAULT_TOLERANCE_MS, FIRST_OFFICE, RunTerms};
use records::text::Text;
use slot_bounds::store_byte;
use std::rt::HostRuntime;
use tokens::field::signed_of;
use tokens::token::token_of;

// The terms, and the first option whose value is none.
#[derive(Clone, Copy)]
pub struct Asked {
    pub limit: LimitText,
    pub terms: RunTerms,
    pub fault: Option<Switch>,
}

fn time_at(rt: HostRuntime, line: &[u8], at: usize) -> Timed {
    let mut word = io::buffer();
    let len = read_word(rt, line, at, &mut word);
    time_of_text(&word[..len])
}

// The moment behind an option; another one where the option is not there.
pub fn time_behind(rt: HostRuntime, line: &[u8], option: Switch, other: Time) -> Timed {
    match place_behind(rt, line, option) {
        Some(at) => time_at(rt, line, at),
        None => Timed {
            is_timed: true,
            time: other,
        },
    }
}

fn number_at(rt: HostRuntime, line: &[u8], at: usize) -> Option<i64> {
    let mut word = io::buffer();
    let len = read_word(rt, line, at, &mut word);
    signed_of(token_of(&word[..len]))
}

// The number behind an option, likewise.
pub fn number_behind(rt: HostRuntime, line: &[u8], option: Switch, other: i64) -> Option<i64> {
    match place_behind(rt, line, option) {
        Some(at) => number_at(rt, line, at),
        None => Some(other),
    }
}

fn copy(slots: &mut [u8], text: &[u8]) {
    for (i, &byte) in text.iter().enumerate() {
        store_byte(slots, i, byte);
    }
}

// The bytes that have a slot, and the length as it is.
fn text_at(rt: HostRuntime, line: &[u8], at: usize) -> Text {
    let mut word = io::buffer();
    let mut bytes = [0u8; TEXT];
    let len = read_word(rt, line, at, &mut word);
    copy(&mut bytes, &word[..len]);
    Text { bytes, len }
}

fn keep_bytes(text: &mut [u8], word: &[u8]) -> usize
    ensures { Counted result text.new }
{
    let mut len: usize = 0;
    for &byte in word {
        len = keep_byte(text, len, byte);
    }
    len
}

// A text that is not given has the limit of an empty one.
pub fn limit_of(rt: HostRuntime, line: &[u8]) -> LimitText {
    let mut word = io::buffer();
    let mut bytes = [0u8; LIMIT_TEXT];
    let n = read_behind(rt, line, Switch::Limit, &mut word);
    let len = keep_bytes(&mut bytes, &word[..n]);
    LimitText { bytes, len }
}

fn file_of(rt: HostRuntime, line: &[u8]) -> Text {
    match place_behind(rt, line, Switch::File) {
        Some(at) => text_at(rt, line, at),
        None => Text::blank(),
    }
}

// Of a number that no office has, one that no run takes.
fn office_of(number: i64) -> u8 {
    match number {
        1 => 1,
        2 => 2,
        _ => 0,
    }
}

fn fault_of(is_clock: bool, is_tolerance: bool, office: u8) -> Option<Switch> {
    if !is_clock {
        return Some(Switch::Clock);
    }
    if !is_tolerance {
        return Some(Switch::Tolerance);
    }
    if office == 0 {
        return Some(Switch::Office);
    }
    None
}

// The clock is 0 where none is given: the command says whether it wants one.
pub fn terms_of(rt: HostRuntime, line: &[u8]) -> Asked {
    let clock = time_behind(rt, line, Switch::Clock, Time(0));
    let tolerance = number_behind(rt, line, Switch::Tolerance, DEFAULT_TOLERANCE_MS);
    let number = number_behind(rt, line, Switch::Office, FIRST_OFFICE as i64);
    let office = office_of(number.unwrap_or(0));
    let has_file = has(rt, line, Switch::File);
    let file = file_of(rt, line);
    let limit = limit_of(rt, line);
    let terms = RunTerms {
        clock_ms: clock.time,
        tolerance_ms: Age(tolerance.unwrap_or(0)),
        has_file,
        file,
        office,
    };
    Asked {
        limit,
        terms,
        fault: fault_of(clock.is_timed, tolerance.is_some(), office),
    }
}
