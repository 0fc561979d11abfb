// import FILE: what a metadata file holds, in plain words, or why it is refused.
use crate::asked::are_words;
use crate::read::read_metadata_at;
use cards::card::{Card, counted};
use cards::record::{identity, single_fields};
use cards::table::OF_REFS;
use file_words::Command;
use file_words::file::read_file_name;
use named_files::metadata::Held;
use plaintext::name::say_escaped;
use plaintext::table::say_elements;
use plaintext::template::say_part;
use plaintext::text::say;
use records::capacities::SNAPSHOTS;
use records::metadata::{SingleFields, TableMetadata};
use records::snapshot::Snapshots;
use slot_bounds::with_slots;
use std::rt::HostRuntime;
use tokens::input::Input;
use tokens::output::Output;

// The times of the oldest and the newest snapshot.
#[derive(Clone, Copy)]
struct Span {
    oldest: i64,
    newest: i64,
}

fn span_of(snapshots: Snapshots) -> Span {
    let n = with_slots(snapshots.count, SNAPSHOTS);
    let mut oldest = i64::MAX;
    let mut newest = i64::MIN;
    for snapshot in &snapshots.items[..n] {
        oldest = oldest.min(snapshot.timestamp_ms.0);
        newest = newest.max(snapshot.timestamp_ms.0);
    }
    Span { oldest, newest }
}

fn say_fields(output: &mut Output, fields: SingleFields) {
    let first = b"  format version: #0\
        \n  uuid: ^\n";
    let others = b"  location: $\
        \n  last update: #0 (@0)\
        \n  last sequence number: #1\
        \n  next row id: %0\
        \n  current snapshot: ?3{none|#4}\n";
    say_part(output, first, 0, 0, identity(fields));
    say_part(output, others, 0, 0, single_fields(fields));
}

fn say_snapshots(output: &mut Output, snapshots: Snapshots) {
    let template = b"  snapshots: %0?0{|, the oldest of @1, the newest of @2}\n";
    let span = span_of(snapshots);
    let count = snapshots.count;
    let card = Card::of_numbers(
        [(count > 0) as i64, span.oldest, span.newest, 0, 0, 0, 0, 0],
        [count as u64, 0],
    );
    say_part(output, template, 0, 0, card);
}

// Two counts a line.
fn say_counts(output: &mut Output, template: &[u8], one: usize, other: usize) {
    let card = Card::of_numbers([0; 8], [one as u64, other as u64]);
    say_part(output, template, 0, 0, card);
}

fn say_tables(output: &mut Output, m: TableMetadata) {
    say_counts(
        output,
        b"  entries of the snapshot log: %0\n  entries of the metadata log: %1\n",
        m.snapshot_log.count,
        m.metadata_log.count,
    );
    say_counts(
        output,
        b"  schemas: %0\n  sort orders: %1\n",
        m.schemas.count,
        m.sort_orders.count,
    );
    say_counts(
        output,
        b"  statistics files: %0\n  partition statistics files: %1\n",
        m.statistics.count,
        m.partition_statistics.count,
    );
    say_counts(
        output,
        b"  partition specs: %0\n  refs: %1\n",
        m.partition_specs.count,
        m.refs.count,
    );
    say_elements(output, m, OF_REFS);
}

// What was left out is said of a JSON file.
pub fn say_skipped(output: &mut Output, is_json: bool, skipped: usize) {
    if !is_json {
        return;
    }
    let template = b"?0{the file has nothing more at its outermost level\
        |the file has more at its outermost level, which is not held: members: %0}\
        \nwhat its snapshots and statistics files have more is passed over, and not counted\n";
    let mut card = counted(skipped, 0);
    card.signed[0] = (skipped > 0) as i64;
    say_part(output, template, 0, 0, card);
}

fn say_held(output: &mut Output, name: &[u8], metadata: TableMetadata) {
    say(output, b"accepted: ");
    say_escaped(output, name, name.len());
    say(output, b"\n");
    say_fields(output, metadata.fields);
    say_snapshots(output, metadata.snapshots);
    say_tables(output, metadata);
}

fn say_file(rt: HostRuntime, output: &mut Output, line: &[u8], held: Held) {
    let mut name = io::buffer();
    let len = read_file_name(rt, line, 0, &mut name);
    if held.number == 0 {
        say_held(output, &name[..len], held.metadata);
        say_skipped(output, held.is_json, held.skipped);
    }
}

pub fn import(rt: HostRuntime, line: &[u8], input: &mut Input, output: &mut Output) {
    if are_words(rt, line, Command::Import, 1, 1, output) {
        let held = read_metadata_at(rt, line, 0, input, output);
        say_file(rt, output, line, held);
    }
}
