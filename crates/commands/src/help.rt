// Help, and a word that is no command.
use crate::turn::{Stage, Turn};
use command::{read_word, word_count};
use file_words::Command;
use plaintext::name::say_name;
use plaintext::text::say;
use std::rt::HostRuntime;
use tokens::output::Output;

// What each command wants.
fn help_of(command: Command) -> &'static [u8] {
    match command {
        Command::Help => {
            b"soritauba COMMAND [WORDS]\n\
            \x20 run        what a run makes of last session's metadata, in plain words\n\
            \x20 replay     whether a stored log leads from one metadata to another\n\
            \x20 current    which snapshot was current at a moment, or in a day\n\
            \x20 expire     what goes and what stays by age and count, why, and the list of updates for it\n\
            \x20 import     what a metadata file holds, or why it is refused\n\
            \x20 export     metadata written as a JSON file\n\
            \x20 audit      the auditor's three answers on a page, from a session's files\n\
            \x20 examples   the examples P1 to P12 of the requirements\n\
            \x20 tour       every command on example files, each with what is asked\n\
            \x20 cases      answers to cases, in numbers\n\
            \x20 repeat     one case answered many times, to time it\n\
            \x20 dates      the date of each time\n\
            \x20 help       this list; help COMMAND, or COMMAND --help: what a command wants\n"
        }
        Command::Run => {
            b"soritauba run [FILE..]: what a run makes of last session's metadata, in plain words\n\
            It reads runs in the case format (docs/CASES.md), any number of them: cases of kinds 1 and 9.\n\
            For each it prints the metadata that is given, what is asked, and the answer: accepted, with what came of it, or refused, with the reason.\n\
            Each file is read by itself, in the order given, up to the first that can not be read; without files, standard input is.\n\
            Example: ./soritauba run crates/soritauba/data/first-session.case\n\
            soritauba run --updates LIST [FILE]: the first run of the file, with a list of updates as JSON in the place of its own\n\
            The list is that of the Iceberg REST catalogue (docs/JSON.md), in the file LIST or, for -, on standard input.\n\
            Where the list is refused, nothing is run: each defect is told by its line, its column and the names that lead there, the first of them first.\n\
            Example: ./soritauba run --updates crates/soritauba/data/updates.json crates/soritauba/data/first-session.case\n\
            soritauba run LAST --updates LIST --clock TIME [OPTION..]: a session by files\n\
            LAST is last session's metadata, and LIST its list of updates: what begins with { or [ is JSON, and everything else is in the case format.\n\
            \x20 --clock TIME        2025-04-09T10:01:00Z, 2025-04-09T12:01+02:00, or milliseconds since 1970\n\
            \x20 --tolerance MS      how far a snapshot may lie before the last entry, 60000 where it is left out\n\
            \x20 --file NAME         the current metadata file; none where it is left out\n\
            \x20 --limit TEXT        how many metadata files stay in the log; 100 where it is left out\n\
            \x20 --office N          1 or 2; 1 where it is left out\n\
            \x20 --out FILE          the new metadata is written there, as JSON\n\
            \x20 --log FILE          the change log, as JSON, or in the case format where JSON can not have it\n\
            \x20 --expired FILE      the names of the expired metadata files, a line each\n\
            Nothing is overwritten, and either all files are written whole, or none is.\n"
        }
        Command::Replay => {
            b"soritauba replay [FILE..]: whether a stored log leads from a starting metadata to an ending one\n\
            It reads questions in the case format (docs/CASES.md), any number of them: a run, whose updates are the log, then the ending metadata.\n\
            For each it prints a line: the log leads there; or what differs first; or the refusal, with the reason.\n\
            Each file is read by itself, in the order given, up to the first that can not be read; without files, standard input is.\n\
            Example: ./soritauba replay crates/soritauba/data/stored-log.case\n\
            soritauba replay LAST LOG THIS [OPTION..]: the same by files, of which LAST is JSON or --clock is among the options\n\
            The options are --clock, --tolerance, --file, --limit and --office, as of run. The clock that is left out is this session's last update, and the\n\
            current file that is left out is read off this session's metadata log.\n"
        }
        Command::Current => {
            b"soritauba current [--in FILE] MOMENT..: which snapshot was current at each moment\n\
            A moment is one of\n\
            \x20 2025-03-12                a day in UTC: every snapshot that was current in it\n\
            \x20 2025-03-12T10:00:00Z      a moment in UTC; seconds and Z can be left out, and .123 can follow the seconds\n\
            \x20 2025-03-12T12:00+02:00    a moment by a clock ahead of UTC, or behind it as in -05:30\n\
            \x20 1741773600000             milliseconds since 1970\n\
            The metadata is in the case format (docs/CASES.md), in the file or, without one, on standard input; a file that begins with { is JSON.\n\
            Example: ./soritauba current --in crates/soritauba/data/register.metadata 2025-03-12\n"
        }
        Command::Expire => {
            b"soritauba expire [--run] [FILE..]: what goes and what stays by age and count, why, and the list of updates for it\n\
            It reads expiries in the case format (docs/CASES.md), any number of them: cases of kind 12.\n\
            For each it prints every ref and every snapshot with why it stays or goes, the list, and what the run of it answers; or the refusal, with the reason.\n\
            With --run it prints for each the run of the list in the case format, for run to read, and nothing else; or the refusal.\n\
            Each file is read by itself, in the order given, up to the first that can not be read; without files, standard input is.\n\
            Example: ./soritauba expire crates/soritauba/data/expiring.case\n\
            soritauba expire FILE --clock TIME [OPTION..]: the same of a metadata file\n\
            \x20 --min-snapshots-to-keep N   where a branch says nothing, 1 where it is left out\n\
            \x20 --max-snapshot-age-ms MS    likewise, 432000000 (five days)\n\
            \x20 --max-ref-age-ms MS         likewise, for ever\n\
            \x20 --office N                  1 or 2; 1 where it is left out\n\
            \x20 --out FILE                  the list is written there, for run --updates to read\n"
        }
        Command::Examples => {
            b"soritauba examples [NAME..]: the examples of the requirements\n\
            It takes names from P1 to P12 and prints a line for each; without names it prints all, each with its name. It reads nothing.\n\
            Example: ./soritauba examples P3\n"
        }
        Command::Tour => {
            b"soritauba tour [all]: every command on example files, each with what is asked\n\
            It reads the files of crates/soritauba/data, in the folder in which it is started.\n\
            With the word all, every other example file follows.\n"
        }
        Command::Cases => {
            b"soritauba cases [FILE..]: answers of the run, the expiry, the reader of JSON, the walks and the small functions, in numbers\n\
            It reads cases in the case format (docs/CASES.md), any number of them, and prints for each a line with its answer.\n\
            Each file is read by itself, in the order given, up to the first that can not be read; without files, standard input is.\n\
            Example: ./soritauba cases crates/soritauba/data/small.cases\n"
        }
        Command::Repeat => {
            b"soritauba repeat [FILE..]: one case answered many times, to time the calls\n\
            It reads a count and a case in the case format (docs/CASES.md): a run, a walk over ids or over records, or, as kind 0, the close of a run.\n\
            It prints the last answer, as cases does. What stands after the case is not read.\n\
            Example: ./soritauba repeat crates/soritauba/data/repeated.case\n"
        }
        Command::Dates => {
            b"soritauba dates [FILE..]: the date of each time\n\
            It reads times in milliseconds since 1970, any number of them, and prints for each a line: its date, and the time of that date; none outside the years 1 to 9999.\n\
            Example: ./soritauba dates crates/soritauba/data/some.times\n"
        }
        Command::Import => {
            b"soritauba import FILE: what a metadata file holds, or why it is refused\n\
            It reads metadata as JSON (docs/FILES.md), or in the case format, and says its fields, its counts, its refs, and how many members are not held.\n\
            Where it is refused, each defect is told by its line, its column and the names that lead there, the first of them first.\n"
        }
        Command::Export => {
            b"soritauba export [FILE] OUT: metadata written as a JSON file\n\
            The metadata stands in the file, or in the case format on standard input. OUT is made new: a file that is there is not overwritten.\n"
        }
        Command::Audit => {
            b"soritauba audit LAST LOG THIS [DAY..]: the auditor's three answers on a page that can be printed and signed\n\
            Does the stored log lead from last session's metadata to this session's? Which snapshot was current on each day, and is the history whole?\n\
            Are the row ranges apart, and can an id repeat from here on? Each with the theorem behind it, and what it rests on.\n\
            The options are those of replay.\n"
        }
    }
}

pub fn give_help(mut turn: Turn, command: Command, output: &mut Output) -> Turn {
    turn.stage = Stage::Lines;
    say(output, help_of(command));
    turn
}

// As the last line, what the word at a place of the command line is.
fn say_word(rt: HostRuntime, line: &[u8], at: usize, output: &mut Output) {
    let mut word = io::buffer();
    let len = read_word(rt, line, at, &mut word);
    if at < word_count(rt, line) {
        say(output, b"unknown command: ");
        say_name(output, &word[..len], len);
    } else {
        say(output, b"no command is given");
    }
    say(output, b"\n");
}

// The list, and below it the word that is no command.
pub fn say_unknown(rt: HostRuntime, mut turn: Turn, output: &mut Output) -> Turn {
    let mut line = io::buffer();
    let len = turn.read_line(&mut line);
    turn.stage = Stage::Lines;
    say(output, help_of(Command::Help));
    say_word(rt, &line[..len], turn.at, output);
    turn
}
