// current --in FILE MOMENT..: which snapshot was current at each moment, of a metadata file.
use crate::read::read_metadata_behind;
use current::say_moments;
use file_words::option::Switch;
use named_files::metadata::Held;
use std::rt::HostRuntime;
use tokens::input::Input;
use tokens::output::Output;

// The moments stand behind `--in` and the name of the file.
const FIRST_MOMENT: usize = 3;

fn say_held(rt: HostRuntime, output: &mut Output, line: &[u8], held: Held) {
    let metadata = held.metadata;
    if held.number == 0 {
        say_moments(
            rt,
            output,
            metadata.snapshot_log,
            metadata.snapshots,
            line,
            FIRST_MOMENT,
        );
    }
}

pub fn current(rt: HostRuntime, line: &[u8], input: &mut Input, output: &mut Output) {
    let held = read_metadata_behind(rt, line, Switch::In, input, output);
    say_held(rt, output, line, held);
}
