// The options, and what stands behind them.
ghost use Rattle.slot_bounds.specs.Counted.{Counted};

use command::{read_word, word_count};
use plaintext::name::say_name;
use plaintext::text::say;
use std::num::wrapping_add_usize;
use std::rt::HostRuntime;
use tokens::output::Output;

#[derive(Clone, Copy, PartialEq, Eq, Debug)]
pub enum Switch {
    Clock,
    Tolerance,
    File,
    Limit,
    Office,
    Updates,
    Out,
    Log,
    Expired,
    MinSnapshots,
    MaxSnapshotAge,
    MaxRefAge,
    In,
}

impl Switch {
    // The option that a word names.
    fn of_word(word: &[u8]) -> Option<Switch> {
        match word {
            b"--clock" => Some(Switch::Clock),
            b"--tolerance" => Some(Switch::Tolerance),
            b"--file" => Some(Switch::File),
            b"--limit" => Some(Switch::Limit),
            b"--office" => Some(Switch::Office),
            b"--updates" => Some(Switch::Updates),
            b"--out" => Some(Switch::Out),
            b"--log" => Some(Switch::Log),
            b"--expired" => Some(Switch::Expired),
            b"--min-snapshots-to-keep" => Some(Switch::MinSnapshots),
            b"--max-snapshot-age-ms" => Some(Switch::MaxSnapshotAge),
            b"--max-ref-age-ms" => Some(Switch::MaxRefAge),
            b"--in" => Some(Switch::In),
            _ => None,
        }
    }

    // What its value is to be, where not every word is one.
    fn value(self) -> &'static [u8] {
        match self {
            Switch::Clock => {
                b"--clock: give a moment, as 2025-04-09T10:01:00Z or 2025-04-09T12:01+02:00, or milliseconds since 1970"
            }
            Switch::Tolerance => b"--tolerance: give milliseconds",
            Switch::Office => b"--office: give 1 or 2",
            Switch::MinSnapshots => b"--min-snapshots-to-keep: give a number of snapshots",
            Switch::MaxSnapshotAge => b"--max-snapshot-age-ms: give milliseconds",
            Switch::MaxRefAge => b"--max-ref-age-ms: give milliseconds",
            _ => b"",
        }
    }
}

fn option_at(rt: HostRuntime, line: &[u8], at: usize) -> Option<Switch> {
    let mut word = io::buffer();
    let len = read_word(rt, line, at, &mut word);
    Switch::of_word(&word[..len])
}

// Whether an option stands there, one of the list or not.
pub fn is_option(rt: HostRuntime, line: &[u8], at: usize) -> bool {
    let mut word = io::buffer();
    let len = read_word(rt, line, at, &mut word);
    len > 2 && word[..len].starts_with(b"--")
}

// Behind a word, and behind the value of an option.
pub fn next_place(rt: HostRuntime, line: &[u8], at: usize) -> usize {
    let next = wrapping_add_usize(at, 1);
    if is_option(rt, line, at) {
        return wrapping_add_usize(next, 1);
    }
    next
}

// The place of the value of an option, if the option is there.
pub fn place_behind(rt: HostRuntime, line: &[u8], option: Switch) -> Option<usize> {
    let n = word_count(rt, line);
    let mut at = 1;
    for _ in 0..n {
        if at >= n {
            break;
        }
        if option_at(rt, line, at) == Some(option) {
            return Some(wrapping_add_usize(at, 1));
        }
        at = next_place(rt, line, at);
    }
    None
}

pub fn has(rt: HostRuntime, line: &[u8], option: Switch) -> bool {
    place_behind(rt, line, option).is_some()
}

// The value of an option; an empty one where the option is not there.
pub fn read_behind(rt: HostRuntime, line: &[u8], option: Switch, value: &mut [u8]) -> usize
    ensures { Counted result value.new }
{
    match place_behind(rt, line, option) {
        Some(at) => read_word(rt, line, at, value),
        None => 0,
    }
}

// Whether what stands there is a file, or an option that is wanted with a value behind it.
fn is_sound(rt: HostRuntime, line: &[u8], at: usize, n: usize, wanted: &[Switch]) -> bool {
    if !is_option(rt, line, at) {
        return true;
    }
    match option_at(rt, line, at) {
        Some(option) => wanted.contains(&option) && wrapping_add_usize(at, 1) < n,
        None => false,
    }
}

// The place of the first option that may not stand there, or has no value.
pub fn unsound_at(rt: HostRuntime, line: &[u8], wanted: &[Switch]) -> Option<usize> {
    let n = word_count(rt, line);
    let mut at = 1;
    for _ in 0..n {
        if at >= n {
            break;
        }
        if !is_sound(rt, line, at, n, wanted) {
            return Some(at);
        }
        at = next_place(rt, line, at);
    }
    None
}

// As the last line: the word is no option of the command, or has no value.
pub fn say_unsound(rt: HostRuntime, output: &mut Output, line: &[u8], at: usize) {
    let mut word = io::buffer();
    let len = read_word(rt, line, at, &mut word);
    say(output, b"bad word: ");
    say_name(output, &word[..len], len);
    say(
        output,
        b" is no option of this command, or nothing stands behind it\n",
    );
}

// As the last line: what stands behind an option is no value of it.
pub fn say_no_value(rt: HostRuntime, output: &mut Output, line: &[u8], option: Switch) {
    let mut word = io::buffer();
    let len = read_behind(rt, line, option, &mut word);
    say(output, b"bad word: ");
    say_name(output, &word[..len], len);
    say(output, b" behind ");
    say(output, option.value());
    say(output, b"\n");
}
