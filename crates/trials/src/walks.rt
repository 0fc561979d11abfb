// Cases 2 and 3: ancestor walks, over ids and over records, made so many times into the same buffer.
ghost use Rattle.std.specs.Prelude.{◌≡◌, length};

use case_reader::ids::{BUFFER, IDS, read_ids};
use case_reader::snapshot::read_snapshots;
use case_reader::walk_terms::{WalkTerms, read_walk_terms};
use case_writer::ids::put_ids;
use catalogue::table_ancestors;
use records::snapshot::Snapshots;
use tokens::input::Input;
use tokens::number::{put_count, put_u8};
use tokens::output::Output;
use walk::{Walked, ancestors};

// What a buffer holds before the call.
const UNTOUCHED: i64 = -7;

fn untouched() -> [i64; BUFFER]
    ensures { 80 ≡ length result }
{
    [UNTOUCHED; BUFFER]
}

// Before the first walk.
fn unwalked() -> Walked {
    Walked {
        number: 0,
        count: 0,
    }
}

fn put_walked(output: &mut Output, walked: Walked, buffer: &[i64]) {
    put_u8(output, walked.number);
    put_count(output, walked.count);
    put_ids(output, buffer);
}

fn walk_ids(
    times: u64,
    ids: &[i64],
    parents: &[i64],
    terms: WalkTerms,
    buffer: &mut [i64],
) -> Walked {
    let mut last = unwalked();
    for _ in 0..times {
        last = ancestors(
            ids,
            parents,
            terms.start,
            terms.has_excluded,
            terms.excluded,
            buffer,
        );
    }
    last
}

fn walk_records(times: u64, snapshots: Snapshots, terms: WalkTerms, buffer: &mut [i64]) -> Walked {
    let mut last = unwalked();
    for _ in 0..times {
        last = table_ancestors(
            snapshots,
            terms.start,
            terms.has_excluded,
            terms.excluded,
            buffer,
        );
    }
    last
}

fn answer_ids(
    times: u64,
    ids: &[i64],
    parents: &[i64],
    terms: WalkTerms,
    buffer: &mut [i64],
    output: &mut Output,
) {
    let walked = walk_ids(times, ids, parents, terms, buffer);
    put_walked(output, walked, buffer);
}

fn answer_records(
    times: u64,
    snapshots: Snapshots,
    terms: WalkTerms,
    buffer: &mut [i64],
    output: &mut Output,
) {
    let walked = walk_records(times, snapshots, terms, buffer);
    put_walked(output, walked, buffer);
}

pub fn ids(times: u64, input: &mut Input, output: &mut Output) {
    let mut ids = [0i64; IDS];
    let mut parents = [0i64; IDS];
    let n = read_ids(input, &mut ids);
    let m = read_ids(input, &mut parents);
    let terms = read_walk_terms(input);
    if input.is_good() {
        let mut buffer = untouched();
        let len = terms.buffer_length;
        answer_ids(
            times,
            &ids[..n],
            &parents[..m],
            terms,
            &mut buffer[..len],
            output,
        );
    }
}

pub fn records(times: u64, input: &mut Input, output: &mut Output) {
    let snapshots = read_snapshots(input);
    let terms = read_walk_terms(input);
    if input.is_good() {
        let mut buffer = untouched();
        let len = terms.buffer_length;
        answer_records(times, snapshots, terms, &mut buffer[..len], output);
    }
}
