// The words of the line that is gone through. The program's own line is the empty one.
ghost use Rattle.slot_bounds.specs.Counted.{Counted};

use command::{read_part, read_word};
use file_words::Command;
use file_words::file::{is_json, is_json_at};
use file_words::option::{Switch, has};
use std::rt::HostRuntime;

// No byte: lines have no quotes.
const NO_QUOTE: u8 = 0;

// The command that the word at a place of a line names.
pub fn command_at(rt: HostRuntime, line: &[u8], at: usize) -> Option<Command> {
    let mut word = io::buffer();
    let len = read_word(rt, line, at, &mut word);
    Command::of_word(&word[..len])
}

// Whether a word stands at a place of a line.
pub fn is_word(rt: HostRuntime, line: &[u8], at: usize, wanted: &[u8]) -> bool {
    let mut word = io::buffer();
    let len = read_word(rt, line, at, &mut word);
    &word[..len] == wanted
}

// Whether the word after the command is `--help`.
pub fn asks_for_help(rt: HostRuntime, line: &[u8]) -> bool {
    is_word(rt, line, 1, b"--help")
}

// The words of `current` are moments, after `--in` and the name of a file where there is one.
pub fn first_moment(rt: HostRuntime, line: &[u8]) -> usize {
    if is_word(rt, line, 1, b"--in") {
        return 3;
    }
    1
}

// The words of `expire` are files, after `--run` where the run of the list is to be written and not asked.
pub fn asks_for_run(rt: HostRuntime, line: &[u8]) -> bool {
    is_word(rt, line, 1, b"--run")
}

// The words of `run` are files, after `--updates` and the name of a list where there is one.
pub fn asks_for_list(rt: HostRuntime, line: &[u8]) -> bool {
    is_word(rt, line, 1, b"--updates")
}

// Whether the metadata of `current` stands in a file that is JSON.
fn is_current_in_json(rt: HostRuntime, line: &[u8]) -> bool {
    let mut name = io::buffer();
    let len = read_word(rt, line, 2, &mut name);
    first_moment(rt, line) == 3 && is_json(rt, &name[..len])
}

// Whether a command goes by files: one that always does; one whose words have a clock, or whose first file is JSON; and `current` of a file that is JSON.
pub fn goes_by_files(rt: HostRuntime, command: Command, line: &[u8]) -> bool {
    match command {
        Command::Import | Command::Export | Command::Audit => true,
        Command::Run | Command::Replay | Command::Expire => {
            has(rt, line, Switch::Clock) || is_json_at(rt, line, 0)
        }
        Command::Current => is_current_in_json(rt, line),
        _ => false,
    }
}

// A line of the tour, between marks. Behind the first, which is empty, each step has two: what is asked, and the command line.
pub fn read_tour(at: usize, line: &mut [u8]) -> usize
    ensures { Counted result line.new }
{
    let lines = b"|\
        The files stand in crates/soritauba/data.\n\nWhat does last session's metadata file hold?|\
        import last-session.json|\
        \nWhat does this session's list make of it? With --out, --log and --expired the new file, the change log and the expired files would be written|\
        run last-session.json --updates session-list.json --clock 2025-04-09T10:01:00Z --file 00001-march.metadata.json|\
        \nWhat does this session's file hold?|\
        import this-session.json|\
        \nDoes the stored log lead from last session's file to this session's?|\
        replay last-session.json session-log.json this-session.json|\
        \nWhich snapshots were current on these days?|\
        current --in this-session.json 2025-03-12 2025-02-01 2025-04-09|\
        \nWhat goes by age and count in June?|\
        expire this-session.json --clock 2025-06-01T00:00:00Z|\
        \nThe auditor's three questions on a page|\
        audit last-session.json session-log.json this-session.json 2025-03-12 2025-02-01 2025-04-10|\
        \nWhat if a file is not right?|\
        import title-column.json|\
        \nIn the case format: what does this session's list make of last session's metadata?|\
        run first-session.case|\
        \nDoes the stored log lead from last session's metadata to this session's? To one with another location? From a start whose main is not held?|\
        replay stored-log.case|\
        \nAnd in this register, of which snapshots were removed?|\
        current --in register.metadata 2025-03-12 2025-02-01 2024-12-31|\
        \nAnd at these moments?|\
        current --in register.metadata 2025-03-12T10:00:00Z 2025-03-12T12:00+02:00 noon|\
        \nWhat does a list as published JSON make of last session's metadata? The list has each of the fifteen actions once|\
        run --updates updates.json first-session.case|\
        \nWhat if such a list is not right? The first defect is the answer, and those behind it follow|\
        run --updates many-defects.json first-session.case|\
        \nWhich refs and snapshots go by age and count, which stay, and why? Which updates does that make, and what does their run answer?|\
        expire expiring.case|\
        \nThe run of these updates, in numbers|\
        expire --run expiring.case|\
        \nWhat does that run make of the metadata? The file holds the line above|\
        run expired.case|\
        \nWhat does the third example of the requirements give, and what the fourth?|\
        examples P3 P4|\
        \nWhat is a run refused for, and what becomes of the metadata?|\
        run refused-session.case|\
        \nWhat if an input is cut short?|\
        run cut-short.case|\
        \nWhat if it is not there?|\
        run no-such-file.case|\
        \nWhat do the small functions answer, in numbers: a limit text, a time window, row ids, a location that is trimmed?|\
        cases small.cases|\
        \nWhat does a command want?|\
        help replay|\
        \nFurther runs: at version 3, with three tolerances, with a history that is not whole, from a start that is not well formed, with statistics files|\
        run further-sessions.case|\
        \nFurther moments, and words that are none|\
        current --in register.metadata 2025-03-12 2025-03-12T10:00:00Z \"2025-03-12 09:59:59.999\" 2025-03-12T12:00+02:00 2025-03-12T04:29:59.999-05:30 \
        1739354400000 2025-02-12 2025-02-01 2025-01-15 2024-12-31 2024-12-31T23:59 2025-02-30 2025-03-12T10:00+24:00 9223372036854775807 \
        -9223372036854775808 2025 20250312 1741737600 noon|\
        \nFurther logs: what differs, what is refused, and one that is cut short|\
        replay further-logs.case|\
        \nSchemas whose fields have names and types, in words|\
        run named-schemas.case|\
        \nThe same in numbers|\
        cases named-schemas.case|\
        \nDoes a log that adds one lead there? Where a field has another name?|\
        replay named-log.case|\
        \nA register that is partitioned by session year, in words|\
        run partitions.case|\
        \nThe same in numbers|\
        cases partitions.case|\
        \nDoes the log of the second run lead there? To a spec whose field has another name, to one spec more, to another default, to another last partition id?|\
        replay partitions-log.case|\
        \nA register that two offices share, in words|\
        run offices.case|\
        \nThe same in numbers|\
        cases offices.case|\
        \nDoes the log of the first run lead there? By the other office? Does one that removes the other's ref? And where owners and refs are not as many?|\
        replay offices-log.case|\
        \nFurther expiries: of two offices, with a list whose run is refused, where nothing goes, with tables given, and refused|\
        expire further-expiries.case|\
        \nTheir runs, in numbers|\
        expire --run further-expiries.case|\
        \nTheir answers, in numbers|\
        cases further-expiries.case|\
        \nWhat if a file holds no expiry?|\
        expire small.cases|\
        \nA list that is not JSON|\
        run --updates not-json.json first-session.case|\
        \nA list that adds a schema with a field that is required|\
        run --updates required-field.json first-session.case|\
        \nLists in numbers: one that comes in three parts, and one that lacks a member|\
        cases lists.cases|\
        \nAll examples|\
        examples|\
        \nThe dates of some times|\
        dates some.times|\
        \nA run answered three times|\
        repeat repeated.case|\
        \nCases of every kind but the expiry and the list, the last of them cut short|\
        cases picked.cases|";
    read_part(lines, b'|', NO_QUOTE, at, line)
}
