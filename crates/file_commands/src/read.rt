// The files of a command, by their places among its files.
use file_words::file::read_file_name;
use file_words::option::{Switch, read_behind};
use named_files::list::Listed;
use named_files::metadata::Held;
use named_files::{list, metadata};
use records::capacities::OFFERS;
use std::rt::HostRuntime;
use tokens::input::Input;
use tokens::output::Output;

pub fn read_metadata_at(
    rt: HostRuntime,
    line: &[u8],
    file: usize,
    input: &mut Input,
    output: &mut Output,
) -> Held {
    let mut name = io::buffer();
    let len = read_file_name(rt, line, file, &mut name);
    metadata::read(rt, &name[..len], input, output)
}

// Metadata whose file stands behind an option.
pub fn read_metadata_behind(
    rt: HostRuntime,
    line: &[u8],
    option: Switch,
    input: &mut Input,
    output: &mut Output,
) -> Held {
    let mut name = io::buffer();
    let len = read_behind(rt, line, option, &mut name);
    metadata::read(rt, &name[..len], input, output)
}

pub fn read_list_at(
    rt: HostRuntime,
    line: &[u8],
    file: usize,
    offers: &mut [u8; OFFERS],
    input: &mut Input,
    output: &mut Output,
) -> Listed {
    let mut name = io::buffer();
    let len = read_file_name(rt, line, file, &mut name);
    list::read(rt, &name[..len], offers, input, output)
}

// A list whose file stands behind an option.
pub fn read_list_behind(
    rt: HostRuntime,
    line: &[u8],
    option: Switch,
    offers: &mut [u8; OFFERS],
    input: &mut Input,
    output: &mut Output,
) -> Listed {
    let mut name = io::buffer();
    let len = read_behind(rt, line, option, &mut name);
    list::read(rt, &name[..len], offers, input, output)
}
