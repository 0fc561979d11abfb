// Metadata by the name of its file.
use crate::whole::{ROOM, Unread, read_whole};
use case_reader::metadata::read_metadata;
use case_reader::more::{Given, read_tag};
use case_reader::run::read_given;
use file_import::import;
use file_told::say_bad_file;
use file_words::file::is_json;
use plaintext::fault::{say_fault, say_unopened};
use plaintext::name::say_escaped;
use plaintext::text::say;
use records::metadata::TableMetadata;
use std::rt::HostRuntime;
use tokens::field::unsigned_of;
use tokens::input::Input;
use tokens::output::Output;
use tokens::source::Source;
use tokens::token::{Token, read_end, read_token};
use tokens::wanted::Wanted;

// The number is 0 where there is metadata. Skipped says how many members of a JSON file are not held; it is 0 of the case format.
#[derive(Clone, Copy)]
pub struct Held {
    pub number: u8,
    pub is_json: bool,
    pub skipped: usize,
    pub metadata: TableMetadata,
}

// Kept: the number of what could not be read, which no refusal has: an Option of metadata would be copied once more where it is taken out, and two stand on
// one stack.
const NO_METADATA: u8 = 255;

fn none() -> Held {
    Held {
        number: NO_METADATA,
        is_json: false,
        skipped: 0,
        metadata: TableMetadata::blank(),
    }
}

fn say_bad_input(output: &mut Output, name: &[u8], why: &[u8]) {
    say(output, b"bad input: ");
    say_escaped(output, name, name.len());
    say(output, why);
}

fn say_unread(output: &mut Output, name: &[u8], unread: Unread) {
    match unread {
        Unread::NotOpened => say_unopened(output, name),
        Unread::NotRead => say_bad_input(output, name, b": the input could not be read\n"),
        Unread::TooLong => say_bad_input(
            output,
            name,
            b": a file of over 393216 bytes is not read\n",
        ),
    }
}

// The text is gone through by the import, and where that refuses it, once more to tell why.
fn imported(name: &[u8], text: &[u8], output: &mut Output) -> Held {
    let imported = import(text);
    if imported.number != 0 {
        let number = imported.number as usize;
        say_bad_file(output, name, text, number, imported.place);
    }
    Held {
        number: imported.number,
        is_json: true,
        skipped: imported.skipped,
        metadata: imported.metadata,
    }
}

fn read_json(rt: HostRuntime, name: &[u8], output: &mut Output) -> Held {
    let mut text = [0u8; ROOM];
    match read_whole(rt, name, &mut text) {
        Ok(whole) => imported(name, whole, output),
        Err(unread) => {
            say_unread(output, name, unread);
            none()
        }
    }
}

// How many tags follow metadata: none where the input ends.
fn read_count_of_tags(input: &mut Input) -> usize {
    let token = read_token(input);
    if token == Token::Blank {
        return 0;
    }
    if let Some(count) = unsigned_of(token, u64::MAX) {
        return count as usize;
    }
    input.spoil(Wanted::UpTo(u64::MAX));
    0
}

// Metadata, and the tables and owners that it is given behind a count, where there is one.
fn read_given_metadata(input: &mut Input) -> TableMetadata {
    let mut metadata = read_metadata(input);
    let count = read_count_of_tags(input);
    let mut last = 0;
    for _ in 0..count {
        if !input.is_good() {
            break;
        }
        last = read_tag(last, input);
        metadata = read_given(Given::none().with(last), metadata, input);
    }
    metadata
}

fn read_open(source: Source, name: &[u8], input: &mut Input, output: &mut Output) -> Held {
    input.turn_to(source);
    let metadata = read_given_metadata(input);
    read_end(input);
    let mut number = 0;
    if !input.is_good() {
        say_fault(output, name, b"", input);
        number = NO_METADATA;
    }
    Held {
        number,
        is_json: false,
        skipped: 0,
        metadata,
    }
}

fn read_case(rt: HostRuntime, name: &[u8], input: &mut Input, output: &mut Output) -> Held {
    let source = Source::open(rt, name);
    if !source.is_open() {
        say_unopened(output, name);
        return none();
    }
    let held = read_open(source, name, input, output);
    input.close();
    held
}

// Metadata in the case format on standard input.
pub fn read_input(rt: HostRuntime, input: &mut Input, output: &mut Output) -> Held {
    read_open(Source::standard(rt), b"", input, output)
}

// The metadata, or what is wrong with it: that is said.
pub fn read(rt: HostRuntime, name: &[u8], input: &mut Input, output: &mut Output) -> Held {
    if is_json(rt, name) {
        return read_json(rt, name, output);
    }
    read_case(rt, name, input, output)
}
