// Case 22: metadata, with the tables and owners that it is given, as a file in a buffer.
use case_reader::metadata::read_metadata;
use case_reader::more::{Given, OFFICE, TOLERANCE, read_tag};
use case_reader::run::read_given;
use case_writer::text::put_bytes;
use file_export::export;
use records::metadata::TableMetadata;
use slot_bounds::lent;
use tokens::field::{read_count, read_up_to};
use tokens::input::Input;
use tokens::number::{put_count, put_u8};
use tokens::output::Output;
use tokens::wanted::Wanted;

// The kind of an export among the cases.
pub const EXPORT: u64 = 22;

// The longest buffer, and what it holds everywhere before the call.
const LONGEST: usize = 65536;

const UNWRITTEN: u8 = 7;

// The tag of a table or of the owners. An export has neither a tolerance nor an office, so theirs may not stand here.
fn read_tag_of_table(last: u64, input: &mut Input) -> u64 {
    let tag = read_tag(last, input);
    if tag == TOLERANCE || tag == OFFICE {
        input.spoil(Wanted::Tag(last));
    }
    tag
}

fn read_exported(input: &mut Input) -> TableMetadata {
    let mut metadata = read_metadata(input);
    let count = read_count(input);
    let mut last: u64 = 0;
    for _ in 0..count {
        if !input.is_good() {
            break;
        }
        last = read_tag_of_table(last, input);
        metadata = read_given(Given::none().with(last), metadata, input);
    }
    metadata
}

// How many bytes are as they were before the call.
fn count_unwritten(bytes: &[u8]) -> usize {
    let mut count: usize = 0;
    for &byte in bytes {
        if byte == UNWRITTEN {
            count += 1;
        }
    }
    count
}

// The number, the length and the bytes of the file, and how many of those behind it were kept.
fn put_file(output: &mut Output, number: u8, length: usize, buffer: &[u8]) {
    let n = lent(buffer, length);
    put_u8(output, number);
    put_bytes(output, buffer, length);
    put_count(output, count_unwritten(&buffer[n..]));
}

fn put_exported(output: &mut Output, metadata: TableMetadata, buffer: &mut [u8]) {
    let exported = export(metadata, buffer);
    put_file(output, exported.number, exported.length, buffer);
}

pub fn answer(input: &mut Input, output: &mut Output) {
    let metadata = read_exported(input);
    let room = read_up_to(input, LONGEST as u64) as usize;
    if input.is_good() {
        let mut buffer = [UNWRITTEN; LONGEST];
        let n = lent(&buffer, room);
        put_exported(output, metadata, &mut buffer[..n]);
    }
}
