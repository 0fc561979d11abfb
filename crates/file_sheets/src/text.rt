// Texts in lent slots. What has no room is counted and left out.
use cards::update::update;
use case_writer::update::put_update;
use file_export::export;
use log_writer::write_log;
use new_files::Unmade;
use plaintext::name::say_escaped;
use records::capacities::{METADATA_LOG, UPDATES};
use records::metadata::{MetadataLog, MetadataLogEntry, TableMetadata};
use records::replies::{ACCEPTED, START_NOT_FORMED};
use records::update::UpdateList;
use slot_bounds::{store_byte, with_slots};
use std::num::wrapping_add_usize;
use tokens::number::put_count;
use tokens::output::Output;

// Room for every exported file, which has at most 339,202 bytes, and for every log.
pub const ROOM: usize = 393216;

// Room for the names of all metadata files, each byte of which may be written as four.
pub const NAMES: usize = 49408;

// How many bytes a text has, or why there is none.
pub type Sheet = Result<usize, Unmade>;

fn copy(slots: &mut [u8], at: usize, text: &[u8]) {
    for (i, &byte) in text.iter().enumerate() {
        store_byte(slots, wrapping_add_usize(at, i), byte);
    }
}

// What waits in an output goes behind what the slots hold already; how much they hold then.
fn move_to(slots: &mut [u8], at: usize, output: &mut Output) -> usize {
    let bytes = output.waiting();
    let behind = wrapping_add_usize(at, bytes.len());
    copy(slots, at, bytes);
    output.clear();
    behind
}

// In the case format: the count and the updates, an added schema with its names. One update has room in an output, so nothing is written out before it is moved.
pub fn put_log_as_case(list: UpdateList, offers: &[u8], slots: &mut [u8]) -> usize {
    let mut output = Output::empty();
    put_count(&mut output, list.count);
    let mut at = move_to(slots, 0, &mut output);
    let n = with_slots(list.count, UPDATES);
    for &u in &list.items[..n] {
        put_update(&mut output, true, update(u, offers));
        at = move_to(slots, at, &mut output);
    }
    store_byte(slots, at, b'\n');
    wrapping_add_usize(at, 1)
}

fn put_name(entry: MetadataLogEntry, slots: &mut [u8], at: usize) -> usize {
    let mut output = Output::empty();
    let file = entry.metadata_file;
    say_escaped(&mut output, &file.bytes, file.len);
    let behind = move_to(slots, at, &mut output);
    store_byte(slots, behind, b'\n');
    wrapping_add_usize(behind, 1)
}

// The names of the files, a line each; bytes that are not printable ASCII are written as in a name.
pub fn put_expired(expired: MetadataLog, slots: &mut [u8]) -> Sheet {
    let n = with_slots(expired.count, METADATA_LOG);
    let mut at: usize = 0;
    for &entry in &expired.items[..n] {
        at = put_name(entry, slots, at);
    }
    Ok(at)
}

// A file can not show the metadata, or a list the log.
const NOT_SHOWN: u8 = 38;

// What the answer of an export or of a log says of a text of a length, by its number.
fn sheet_of(number: u8, length: usize) -> Sheet {
    match number {
        ACCEPTED => Ok(length),
        START_NOT_FORMED => Err(Unmade::NotFormed),
        NOT_SHOWN => Err(Unmade::NotShown),
        _ => Err(Unmade::NoRoom),
    }
}

pub fn put_metadata(metadata: TableMetadata, slots: &mut [u8]) -> Sheet {
    let exported = export(metadata, slots);
    sheet_of(exported.number, exported.length)
}

// As JSON, or where that can not show it, in the case format.
#[derive(Clone, Copy)]
pub struct Log {
    pub is_json: bool,
    pub sheet: Sheet,
}

fn put_case(list: UpdateList, offers: &[u8], slots: &mut [u8]) -> Sheet {
    let length = put_log_as_case(list, offers, slots);
    if length > slots.len() {
        return Err(Unmade::NoRoom);
    }
    Ok(length)
}

pub fn put_log(list: UpdateList, offers: &[u8], slots: &mut [u8]) -> Log {
    let written = write_log(list, offers, slots);
    let sheet = sheet_of(written.number, written.length);
    if sheet == Err(Unmade::NotShown) {
        return Log {
            is_json: false,
            sheet: put_case(list, offers, slots),
        };
    }
    Log {
        is_json: true,
        sheet,
    }
}
