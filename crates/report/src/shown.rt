// What an example shows of a run: the answer's number and place with a counter of the metadata that is given back (on refusal the one that was
// handed in), the snapshot log as JSON, the metadata files that expire and those that stay, or what is logged.
use crate::example::Shown;
use cards::card::Card;
use cards::record::{file, log_entry};
use plaintext::table::{say_comma, say_none};
use plaintext::template::say_part;
use plaintext::text::say;
use plaintext::update::say_update;
use records::capacities::{METADATA_LOG, SNAPSHOT_LOG, UPDATES};
use records::metadata::{MetadataLog, TableMetadata};
use records::run::Answer;
use records::snapshot::{SnapshotLog, SnapshotLogEntry};
use records::update::UpdateList;
use slot_bounds::with_slots;
use tokens::output::Output;

// What stands before the answer of a step.
fn label_of(step: usize) -> &'static [u8] {
    match step {
        0 => b"time 40000: ",
        1 => b"; time 39999: ",
        2 => b"number 5 with parent: ",
        3 => b"; number 3 parentless: ",
        7 => b"first 10, added 18446744073709551605: ",
        8 => b"; added 18446744073709551606: ",
        9 => b"; first 9, added 1: ",
        13 => b"changes: ",
        14 => b"; changes of the replay: ",
        16 => b"time -60000: ",
        17 => b"; time -60001: ",
        _ => b"",
    }
}

pub fn say_label(output: &mut Output, step: usize) {
    say(output, label_of(step));
}

// The braces of JSON stand outside of the template, where they would be marks.
fn say_entry(output: &mut Output, at: usize, entry: SnapshotLogEntry) {
    let template = b"\"snapshot-id\":#0,\"timestamp-ms\":#1";
    if at > 0 {
        say(output, b",");
    }
    say(output, b"{");
    say_part(output, template, 0, 0, log_entry(entry));
    say(output, b"}");
}

fn say_log(output: &mut Output, log: SnapshotLog) {
    let n = with_slots(log.count, SNAPSHOT_LOG);
    say(output, b"[");
    for (i, &entry) in log.items[..n].iter().enumerate() {
        say_entry(output, i, entry);
    }
    say(output, b"]");
}

// The time as it stands in document 01.
fn say_files(output: &mut Output, log: MetadataLog) {
    let n = with_slots(log.count, METADATA_LOG);
    for (i, &entry) in log.items[..n].iter().enumerate() {
        say_comma(output, i);
        say_part(output, b"$ from #0", 0, 0, file(entry));
    }
}

// No example offers anything.
fn say_changes(output: &mut Output, changes: UpdateList) {
    let n = with_slots(changes.count, UPDATES);
    say_none(output, n);
    for (i, &update) in changes.items[..n].iter().enumerate() {
        say_comma(output, i);
        say_update(output, update, b"");
    }
}

// number, last sequence number, last update; place, next row id
fn card_of(number: u8, place: usize, metadata: TableMetadata) -> Card {
    let fields = metadata.fields;
    Card::of_numbers(
        [
            number as i64,
            fields.last_sequence_number.0,
            fields.last_updated_ms.0,
            0,
            0,
            0,
            0,
            0,
        ],
        [place as u64, fields.next_row_id.0],
    )
}

// A counter of the metadata; of a refused run that shows none, the refusal alone.
fn template_of(shown: Shown) -> &'static [u8] {
    match shown {
        Shown::Sequence => b"?0{accepted~refused #0 at %0}, last sequence number #1",
        Shown::NextRow => b"?0{accepted~refused #0 at %0}, next row id %1",
        Shown::Updated => b"?0{accepted~refused #0 at %0}, last update #2",
        _ => b"refused #0 at %0",
    }
}

fn say_ends(output: &mut Output, expired: MetadataLog, staying: MetadataLog) {
    say(output, b"expired: ");
    say_files(output, expired);
    say(output, b"; staying: ");
    say_files(output, staying);
}

pub fn say_shown(output: &mut Output, shown: Shown, answer: Answer) {
    match shown {
        Shown::Changes | Shown::ChangesOfReplay => say_changes(output, answer.changes),
        Shown::Files => say_ends(output, answer.expired, answer.metadata.metadata_log),
        Shown::History if answer.number == 0 => say_log(output, answer.metadata.snapshot_log),
        _ => say_part(
            output,
            template_of(shown),
            0,
            0,
            card_of(answer.number, answer.place, answer.metadata),
        ),
    }
}
