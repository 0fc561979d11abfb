// A list of updates as published JSON, read by C linkage, at once or in parts of a length, and a metadata file, to time them beside other readers.
// The bytes that the updates offer are left where the caller lends room for them. The list stays here: a record of that length has no place in a signature.
// What is told of it is how many updates it has, and the kind of the last.
#![tactic(auto)]

ghost use Rattle.std.specs.Prelude.{◌<◌};

use file_export::export;
use file_import::{Imported, import};
use json_list::{Answer, end, feed, start};
use records::capacities::{OFFERS, UPDATES};

// The number is 0, 27, 28 or 29; where it is 0 the place is 0 too, and else the count and the kind are.
#[repr(C)]
#[derive(Clone, Copy)]
pub struct Read {
    pub number: u8,
    pub count: u8,
    pub kind: u8,
    pub place: usize,
}

// The place of the last of so many; 0 where there is none.
fn last_of(count: usize) -> usize
    ensures { result < 64 }
{
    if count == 0 {
        return 0;
    }
    (count - 1) % UPDATES
}

// A blank update has the kind 0.
fn told(answer: Answer) -> Read {
    let list = answer.list;
    let count = list.count;
    let last = list.items[last_of(count)];
    Read {
        number: answer.number,
        count: (count % 256) as u8,
        kind: last.kind,
        place: answer.place,
    }
}

// Parts without a length are the whole text.
#[unsafe(no_mangle)]
pub extern "C" fn json_updates(text: &[u8], part: usize, offers: &mut [u8; OFFERS]) -> Read {
    let mut reader = start(offers);
    let size = if part == 0 { text.len() } else { part };
    for piece in text.chunks(size.max(1)) {
        reader = feed(reader, piece, offers);
    }
    told(end(reader, offers))
}

// What a metadata file comes to: the number of the answer, how many snapshots its metadata has, and the place of a refusal, or else how many members were
// skipped.
#[repr(C)]
#[derive(Clone, Copy)]
pub struct FileRead {
    pub number: u8,
    pub snapshots: u8,
    pub place: usize,
}

fn told_of(read: Imported) -> FileRead {
    let metadata = read.metadata;
    let count = metadata.snapshots.count;
    let mut place = read.place;
    if read.number == 0 {
        place = read.skipped;
    }
    FileRead {
        number: read.number,
        snapshots: (count % 256) as u8,
        place,
    }
}

#[unsafe(no_mangle)]
pub extern "C" fn json_file(text: &[u8]) -> FileRead {
    told_of(import(text))
}

// A file that is read, and written into a buffer: the place is how many bytes were written.
#[unsafe(no_mangle)]
pub extern "C" fn json_copy(text: &[u8], buffer: &mut [u8]) -> FileRead {
    let read = import(text);
    let metadata = read.metadata;
    let count = metadata.snapshots.count;
    let written = export(metadata, buffer);
    FileRead {
        number: written.number,
        snapshots: (count % 256) as u8,
        place: written.length,
    }
}
