// Files that are made: each is new, and whole or not there at all. A text is written under a name of its own, that of the file and `.part`, and gets the name
// of the file when all of it stands on the disk. Nothing is overwritten: a file that is there is refused, and stays as it was. What became of each is said in a line.
// Several files that belong together are prepared first and placed then, so that one that can not be written keeps the others from being made.
#![tactic(auto)]

ghost use Rattle.slot_bounds.specs.Counted.{Counted};

use plaintext::name::say_escaped;
use plaintext::number::say_count;
use plaintext::text::say;
use slot_bounds::{lent, store_byte};
use std::fs::{File, OpenOptions, remove_file, rename};
use std::io::{Error, ErrorKind};
use std::num::wrapping_add_usize;
use std::os::fd::AsRawFd;
use std::rt::HostRuntime;
use std::str::from_utf8;
use tokens::output::Output;

// Why there is no file.
#[derive(Clone, Copy, PartialEq, Eq, Debug)]
pub enum Unmade {
    // Something has the name of the file.
    Taken,
    // Something has the name of its part, as where a program was stopped before.
    PartTaken,
    // No file can be made there.
    NotMade,
    // A file was made, and the text did not go into it whole.
    NotWritten,
    // Another file that belongs to it could not be written.
    Dropped,
    // There is no text, since it was refused: the metadata is not well formed, or a file can not show it, or it has no room.
    NotFormed,
    NotShown,
    NoRoom,
}

fn copy(slots: &mut [u8], at: usize, text: &[u8]) {
    for (i, &byte) in text.iter().enumerate() {
        store_byte(slots, wrapping_add_usize(at, i), byte);
    }
}

// A name that has no room is cut to one that no file can have.
fn read_part_name(name: &[u8], slots: &mut [u8]) -> usize
    ensures { Counted result slots.new }
{
    copy(slots, 0, name);
    copy(slots, name.len(), b".part");
    lent(slots, wrapping_add_usize(name.len(), 5))
}

fn why_unmade(error: Error, taken: Unmade) -> Unmade {
    if error.kind() == ErrorKind::AlreadyExists {
        return taken;
    }
    Unmade::NotMade
}

// A new file of this name, open for writing, or why there is none. The system's library takes names that are UTF-8 alone.
fn create(rt: HostRuntime, name: &[u8], taken: Unmade) -> Result<File, Unmade> {
    let Ok(path) = from_utf8(name) else {
        return Err(Unmade::NotMade);
    };
    let mut options = OpenOptions::new();
    options.write(true).create_new(true);
    match options.open(&rt, path) {
        Ok(file) => Ok(file),
        Err(error) => Err(why_unmade(error, taken)),
    }
}

fn remove(rt: HostRuntime, name: &[u8]) {
    if let Ok(path) = from_utf8(name) {
        let _ = remove_file(&rt, path);
    }
}

// Whether the name of the part is now that of the file.
fn give_name(rt: HostRuntime, part: &[u8], name: &[u8]) -> bool {
    let Ok(from) = from_utf8(part) else {
        return false;
    };
    let Ok(to) = from_utf8(name) else {
        return false;
    };
    rename(&rt, from, to).is_ok()
}

// Whether the text stands on the disk whole. The file is closed then.
fn write_whole(file: File, text: &[u8]) -> bool {
    let is_written = io::write_all(file.as_raw_fd(), text);
    let is_stored = file.sync_all().is_ok();
    is_written & is_stored
}

// The text under the name of the part.
pub fn prepare(rt: HostRuntime, name: &[u8], text: &[u8]) -> Result<(), Unmade> {
    let mut part = io::buffer();
    let len = read_part_name(name, &mut part);
    let file = create(rt, &part[..len], Unmade::PartTaken)?;
    if !write_whole(file, text) {
        remove(rt, &part[..len]);
        return Err(Unmade::NotWritten);
    }
    Ok(())
}

// What was prepared is not to be placed.
pub fn forget(rt: HostRuntime, name: &[u8]) {
    let mut part = io::buffer();
    let len = read_part_name(name, &mut part);
    remove(rt, &part[..len]);
}

// The name is taken first, by an empty file that nobody else can have made; the part then gets it.
fn move_to(rt: HostRuntime, part: &[u8], name: &[u8]) -> Result<(), Unmade> {
    if let Err(why) = create(rt, name, Unmade::Taken) {
        remove(rt, part);
        return Err(why);
    }
    if !give_name(rt, part, name) {
        remove(rt, name);
        remove(rt, part);
        return Err(Unmade::NotWritten);
    }
    Ok(())
}

// What was prepared becomes the file, or nothing is left of it.
pub fn place(rt: HostRuntime, name: &[u8]) -> Result<(), Unmade> {
    let mut part = io::buffer();
    let len = read_part_name(name, &mut part);
    move_to(rt, &part[..len], name)
}

// A file that was placed, and is not to stay since another of those that belong together could not be.
pub fn take_back(rt: HostRuntime, name: &[u8]) {
    remove(rt, name);
}

pub fn write(rt: HostRuntime, name: &[u8], text: &[u8]) -> Result<(), Unmade> {
    prepare(rt, name, text)?;
    place(rt, name)
}

fn say_why(output: &mut Output, why: Unmade) {
    match why {
        Unmade::Taken => say(
            output,
            b"there is something of that name, and it stays as it was",
        ),
        Unmade::PartTaken => say(
            output,
            b"there is something of that name and .part, as of a program that was stopped; take it away first",
        ),
        Unmade::NotMade => say(output, b"no file of that name can be made there"),
        Unmade::NotWritten => say(
            output,
            b"the text could not be written whole, and nothing of it is left",
        ),
        Unmade::Dropped => say(
            output,
            b"another file that belongs to it could not be written",
        ),
        Unmade::NotFormed => say(output, b"refused 1: the metadata is not well formed"),
        Unmade::NotShown => say(
            output,
            b"refused 38: a file can not show a sequence number at version 1, row ids below version 3, a ref of office 2, or a text that is not UTF-8",
        ),
        Unmade::NoRoom => say(
            output,
            b"refused 25: the text is longer than there is room for",
        ),
    }
}

// What became of a text: how many bytes its file has, or why there is none.
pub fn say_outcome(output: &mut Output, name: &[u8], made: Result<usize, Unmade>) {
    match made {
        Ok(length) => {
            say(output, b"written: ");
            say_escaped(output, name, name.len());
            say(output, b", bytes: ");
            say_count(output, length);
        }
        Err(why) => {
            say(output, b"not written: ");
            say_escaped(output, name, name.len());
            say(output, b": ");
            say_why(output, why);
        }
    }
    say(output, b"\n");
}
