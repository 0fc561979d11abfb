// What the words of a command ask: that its options are its own, that there are as many files as it wants, and the terms of a run.
use file_words::Command;
use file_words::file::count_files;
use file_words::option::{Switch, has, say_no_value, say_unsound, unsound_at};
use file_words::terms::{Asked, terms_of};
use plaintext::text::say;
use std::rt::HostRuntime;
use tokens::output::Output;

// What a command that goes by files wants.
fn wanted_by(command: Command) -> &'static [u8] {
    match command {
        Command::Run => b"run wants one file, last session's metadata",
        Command::Replay => {
            b"replay wants three files: last session's metadata, the stored log, this session's metadata"
        }
        Command::Current => b"current wants its file behind --in, and moments",
        Command::Expire => b"expire wants one file, the metadata",
        Command::Import => b"import wants one file",
        Command::Export => {
            b"export wants the metadata and the file to be made; of one name alone, the metadata is standard input"
        }
        Command::Audit => {
            b"audit wants three files, last session's metadata, the stored log and this session's metadata, and days behind them"
        }
        _ => b"",
    }
}

// As the last line.
fn say_wanted(output: &mut Output, command: Command) {
    say(output, b"bad word: ");
    say(output, wanted_by(command));
    say(output, b"\n");
}

// The options of a command.
fn options_of(command: Command) -> &'static [Switch] {
    match command {
        Command::Run => &[
            Switch::Clock,
            Switch::Tolerance,
            Switch::File,
            Switch::Limit,
            Switch::Office,
            Switch::Updates,
            Switch::Out,
            Switch::Log,
            Switch::Expired,
        ],
        Command::Replay | Command::Audit => &[
            Switch::Clock,
            Switch::Tolerance,
            Switch::File,
            Switch::Limit,
            Switch::Office,
        ],
        Command::Expire => &[
            Switch::Clock,
            Switch::Office,
            Switch::Out,
            Switch::MinSnapshots,
            Switch::MaxSnapshotAge,
            Switch::MaxRefAge,
        ],
        Command::Current => &[Switch::In],
        _ => &[],
    }
}

// Whether the words are those of the command: `least` to `most` files among them. Where they are not, that is said.
pub fn are_words(
    rt: HostRuntime,
    line: &[u8],
    command: Command,
    least: usize,
    most: usize,
    output: &mut Output,
) -> bool {
    if let Some(at) = unsound_at(rt, line, options_of(command)) {
        say_unsound(rt, output, line, at);
        return false;
    }
    let files = count_files(rt, line, 4096);
    if files < least || files > most {
        say_wanted(output, command);
        return false;
    }
    true
}

fn missing(option: Switch) -> &'static [u8] {
    match option {
        Switch::Clock => {
            b"--clock is missing: give the time of the session, as --clock 2025-04-09T10:01:00Z"
        }
        Switch::Updates =>
            b"--updates is missing: give the list of updates, as --updates LIST.json",
        _ => b"",
    }
}

// Whether an option that the command can not do without is there. Where it is not, that is said, as the last line.
pub fn is_there(rt: HostRuntime, line: &[u8], option: Switch, output: &mut Output) -> bool {
    if has(rt, line, option) {
        return true;
    }
    say(output, b"bad word: ");
    say(output, missing(option));
    say(output, b"\n");
    false
}

// The terms of a run. Where a value is none of its option, that is said.
pub fn read_terms(rt: HostRuntime, line: &[u8], output: &mut Output) -> Option<Asked> {
    let asked = terms_of(rt, line);
    if let Some(option) = asked.fault {
        say_no_value(rt, output, line, option);
        return None;
    }
    Some(asked)
}
