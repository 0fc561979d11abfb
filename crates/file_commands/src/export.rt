// export [FILE] OUT: metadata written as a published JSON file.
use crate::asked::are_words;
use crate::read::read_metadata_at;
use file_sheets::session::{prepare_metadata, write_prepared};
use file_words::Command;
use file_words::file::{count_files, read_file_name};
use named_files::metadata::{Held, read_input};
use std::rt::HostRuntime;
use tokens::input::Input;
use tokens::output::Output;

fn write_to(rt: HostRuntime, line: &[u8], file: usize, held: Held, output: &mut Output) {
    let mut name = io::buffer();
    let len = read_file_name(rt, line, file, &mut name);
    if held.number == 0 {
        let sheet = prepare_metadata(rt, &name[..len], held.metadata);
        write_prepared(rt, &name[..len], sheet, output);
    }
}

// The metadata is that of the first of two files, or of standard input where one is named alone.
pub fn export(rt: HostRuntime, line: &[u8], input: &mut Input, output: &mut Output) {
    if !are_words(rt, line, Command::Export, 1, 2, output) {
        return;
    }
    if count_files(rt, line, 2) == 1 {
        let held = read_input(rt, input, output);
        write_to(rt, line, 0, held, output);
    } else {
        let held = read_metadata_at(rt, line, 0, input, output);
        write_to(rt, line, 1, held, output);
    }
}
