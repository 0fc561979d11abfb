// Which snapshot was current at a moment, told in plain words: a line for each moment, which says which snapshot was current then, since when, and
// whether it is still held; or why there is no answer. A day gets a line more for each later snapshot that was current in it.
// Nothing is refused but metadata that can not be read: what is no moment gets a line too. A moment is a date with a time of day, in UTC or
// with an offset from it, or milliseconds since 1970; a UTC date alone is a day.
// The crate `moment` decides which snapshot it is.
#![tactic(auto)]

use crate::log_and_snapshots::LogAndSnapshots;
use calendar::date::Day;
use calendar::text::{day_of_text, fault_of_text, time_of_text};
use command::{read_word, word_count};
use moment::{current_at, current_during};
use plaintext::name::say_escaped;
use plaintext::text::say;
use records::capacities::SNAPSHOT_LOG;
use records::counters::Time;
use records::snapshot::{SnapshotLog, Snapshots};
use slot_bounds::with_slots;
use std::rt::HostRuntime;
use tokens::input::Input;
use tokens::output::Output;

mod answer;
mod doubt;
mod log_and_snapshots;
mod words;

// The snapshots that were current after the first one of a day.
fn say_later(output: &mut Output, snapshots: Snapshots, later: SnapshotLog) {
    let n = with_slots(later.count, SNAPSHOT_LOG);
    for &entry in &later.items[..n] {
        words::say_then(output, answer::of_entry(snapshots, entry));
    }
}

fn say_day(output: &mut Output, kept: LogAndSnapshots, text: &[u8], day: Day) {
    let during = current_during(kept.log, day.first, day.last);
    say_escaped(output, text, text.len());
    say(output, b" (UTC day)");
    words::say_answer(output, answer::of_moment(kept, during.beginning));
    say_later(output, kept.snapshots, during.later);
}

fn say_moment(output: &mut Output, kept: LogAndSnapshots, text: &[u8], time: Time) {
    let found = current_at(kept.log, time);
    words::say_moment(output, time);
    words::say_answer(output, answer::of_moment(kept, found));
    doubt::say_doubt(output, text);
}

fn say_text(output: &mut Output, kept: LogAndSnapshots, text: &[u8]) {
    let day = day_of_text(text);
    let timed = time_of_text(text);
    if day.is_day {
        say_day(output, kept, text, day);
    } else if timed.is_timed {
        say_moment(output, kept, text, timed.time);
    } else {
        words::say_unread(output, text, fault_of_text(text));
    }
}

fn say_word(rt: HostRuntime, output: &mut Output, kept: LogAndSnapshots, line: &[u8], at: usize) {
    let mut text = io::buffer();
    let len = read_word(rt, line, at, &mut text);
    say_text(output, kept, &text[..len]);
}

fn say_words(
    rt: HostRuntime,
    output: &mut Output,
    kept: LogAndSnapshots,
    line: &[u8],
    from: usize,
) {
    let n = word_count(rt, line);
    for at in from..n {
        say_word(rt, output, kept, line, at);
    }
}

// Of a snapshot log and the snapshots that are held, the answers to the words of a command line from this one on.
pub fn say_moments(
    rt: HostRuntime,
    output: &mut Output,
    log: SnapshotLog,
    snapshots: Snapshots,
    line: &[u8],
    from: usize,
) {
    let kept = LogAndSnapshots { log, snapshots };
    say_words(rt, output, kept, line, from);
}

// The same to the word at one place.
pub fn say_moment_at(
    rt: HostRuntime,
    output: &mut Output,
    log: SnapshotLog,
    snapshots: Snapshots,
    line: &[u8],
    at: usize,
) {
    let kept = LogAndSnapshots { log, snapshots };
    say_word(rt, output, kept, line, at);
}

// Of the metadata that is read, the answers to the words of a command line from this one on.
pub fn say_answers(
    rt: HostRuntime,
    line: &[u8],
    from: usize,
    input: &mut Input,
    output: &mut Output,
) {
    let kept = log_and_snapshots::read_log_and_snapshots(input);
    if input.is_good() {
        say_words(rt, output, kept, line, from);
    }
}
