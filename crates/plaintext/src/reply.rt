// An answer's number and place, in the words of document 01, "Numbers of the replies", and of document 02.
use crate::number::{say_count, say_u8};
use crate::text::{say, say_line};
use records::replies::START_NOT_FORMED;
use tokens::output::Output;

// As `refused 21 at 1`.
fn say_refused(output: &mut Output, number: u8, place: usize) {
    say(output, b"refused ");
    say_u8(output, number);
    say(output, b" at ");
    say_count(output, place);
}

// A fault of metadata or of a run's start, by its number of the crate `faults`. A line stands for each number.
pub fn say_fault(output: &mut Output, fault: u8) {
    let faults = b"none\n\
        format version: not 1, 2 or 3\n\
        location: longer than 96 bytes, or an unused byte is not 0\n\
        last sequence number: below 0\n\
        current snapshot: none is set, and its id is not 0\n\
        last partition id: below 0\n\
        snapshots: more than 64\n\
        snapshots: one is not well formed, or an unused place is not blank\n\
        snapshots: their ids do not ascend\n\
        refs: more than 16\n\
        refs: one is not well formed, or an unused place is not blank\n\
        refs: their names do not ascend\n\
        snapshot log: more than 128 entries\n\
        snapshot log: an entry's snapshot id is below 0, or an unused place is not blank\n\
        metadata log: more than 128 entries\n\
        metadata log: an entry's file name is longer than 96 bytes, or an unused place is not blank\n\
        schemas: more than 16\n\
        schemas: one is not well formed, or an unused place is not blank\n\
        schemas: their ids do not ascend\n\
        sort orders: more than 16\n\
        sort orders: one is not well formed, or an unused place is not blank\n\
        sort orders: their ids do not ascend\n\
        statistics: more than 32\n\
        statistics: one is not well formed, or an unused place is not blank\n\
        statistics: their snapshot ids do not ascend\n\
        partition statistics: more than 32\n\
        partition statistics: one is not well formed, or an unused place is not blank\n\
        partition statistics: their snapshot ids do not ascend\n\
        partition specs: more than 16\n\
        partition specs: one is not well formed, or an unused place is not blank\n\
        partition specs: their ids do not ascend\n\
        refs: one names a snapshot that is not held\n\
        current snapshot: it and ref `main` disagree\n\
        current schema: not held\ndefault sort order: not held\ndefault partition spec: not held\n\
        current metadata file: its name is longer than 96 bytes\nrefs: an owner is not 1 or 2, or that of `main` is not 1\n";
    say_line(output, faults, fault as usize);
}

// What a run is refused for: its numbers are 1 to 23, 26, 31 to 35 and 39. A line stands for each number, also for the two of a walk; those of 27 to 30 and
// of 36 to 38, which are no answers yet, are empty.
fn say_number(output: &mut Output, number: u8) {
    let reasons = b"accepted\n\
        the start is not well formed\n\
        list sum above 64\n\
        this update not well formed\n\
        version lowered\n\
        snapshot id already held\n\
        sequence number too low\n\
        more than the tolerance before the last snapshot-log entry\n\
        more than the tolerance before the last update\n\
        first row id below next row id\n\
        version 3 and no row range\n\
        next row id would pass 2^64 - 1\n\
        ref to a snapshot not held\n\
        branch commit on a tag\n\
        -1 given, nothing added in this run\n\
        unknown schema, order or spec id\n\
        current schema in the removal list\n\
        new order names a field not in the current schema\n\
        highest id is already the type's largest\n\
        the table to be grown is full\n\
        close: default order names a field not in the current schema\n\
        close: rebuilt log does not end at the current snapshot\n\
        close: current snapshot and `main` disagree\n\
        close: over 128 metadata-log entries would stay\n\
        walk meets a snapshot twice\n\
        walk's buffer shorter than its answer\n\
        tolerance not within 0 to 3600000 ms\n\n\n\n\n\
        name clash, redundant field or one field id twice in a spec\n\
        source missing or of the wrong type\n\
        ids not sequential\n\
        default spec removed\n\
        not this office's to change: the other's ref, a snapshot that the other needs, or what office 1 keeps\n\n\n\n\
        office not 1 or 2\n";
    say_line(output, reasons, number as usize);
}

// As `refused 12 at 0: ref to a snapshot not held`; of a start that is not well formed, its first fault too.
pub fn say_refusal(output: &mut Output, number: u8, place: usize, fault: u8) {
    say_refused(output, number, place);
    say(output, b": ");
    say_number(output, number);
    if number == START_NOT_FORMED {
        say(output, b": ");
        say_fault(output, fault);
    }
}
