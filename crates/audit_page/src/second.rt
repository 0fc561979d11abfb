// The second question: which snapshot was current on each day, and whether the history is whole.
use current::say_moment_at;
use file_words::file::{count_files, file_at};
use histories::is_whole;
use plaintext::text::say;
use records::metadata::TableMetadata;
use records::snapshot::{SnapshotLog, Snapshots};
use std::rt::HostRuntime;
use tokens::output::Output;

// The files before the days.
const FILES: usize = 3;

// No line has more words.
const MOST: usize = 4096;

fn say_days(
    rt: HostRuntime,
    output: &mut Output,
    log: SnapshotLog,
    snapshots: Snapshots,
    line: &[u8],
) {
    let n = count_files(rt, line, MOST);
    for i in FILES..n {
        if let Some(at) = file_at(rt, line, i) {
            say(output, b"   ");
            say_moment_at(rt, output, log, snapshots, line, at);
        }
    }
    if n <= FILES {
        say(output, b"   No day was asked.\n");
    }
}

fn say_history(output: &mut Output, is_whole: bool) {
    if is_whole {
        say(
            output,
            b"   The history is WHOLE: every snapshot that it names is held.\n",
        );
    } else {
        say(
            output,
            b"   The history is NOT whole: it names a snapshot that is not held, so a later run can take an old answer away or change it.\n",
        );
    }
}

pub fn say_second(rt: HostRuntime, output: &mut Output, metadata: TableMetadata, line: &[u8]) {
    let whole = is_whole(metadata);
    say(
        output,
        b"\n2. Which snapshot was current on each of these days, by this session's metadata?\n",
    );
    say_days(rt, output, metadata.snapshot_log, metadata.snapshots, line);
    say_history(output, whole);
    say(
        output,
        b"   Proved: current-at-unique and current-during-unique. Each answer is the last entry of the snapshot log by that moment, and of a day\
        \n   nothing that was current in it is left out (none-left-out). From a whole history, and where a run's log does not both remove and add one\
        \n   snapshot, an answer stays what it was, becomes an entry of that run, or goes (run-moment-kept); and the history stays whole (run-whole-stays).\
        \n   It rests on the times in the log, which are those of the snapshots and of the clocks of the runs; no clock is checked against another.\n",
    );
}
