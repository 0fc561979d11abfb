// P7 and P9: the limit of a text, and ancestor walks.
use crate::example::{Leaf, run_of};
use catalogue::table_ancestors;
use plaintext::name::say_name;
use plaintext::number::{say_i64, say_u64};
use plaintext::table::{say_comma, say_none};
use plaintext::text::say;
use primitives::limit::limit;
use slot_bounds::with_slots;
use tokens::output::Output;
use walk::ancestors;

// The step that starts from history 1, 2, 3.
const THREE: usize = 4;

fn say_limit(output: &mut Output, at: usize, text: &[u8]) {
    say_comma(output, at);
    say_name(output, text, text.len());
    say(output, b": ");
    say_u64(output, limit(text));
}

// Limits `0`, `+5`, empty, ` 5`, `18446744073709551616`: 1, 5, 100, 100, 100.
fn say_limits(output: &mut Output) {
    say_limit(output, 0, b"0");
    say_limit(output, 1, b"+5");
    say_limit(output, 2, b"");
    say_limit(output, 3, b" 5");
    say_limit(output, 4, b"18446744073709551616");
}

fn say_ids(output: &mut Output, buffer: &[i64], count: usize) {
    say_none(output, count);
    let n = with_slots(count, buffer.len());
    for (i, &id) in buffer[..n].iter().enumerate() {
        say_comma(output, i);
        say_i64(output, id);
    }
}

// 3 has the parent 2, and 2 has 1.
fn walk_ids(excluded: i64, buffer: &mut [i64]) -> usize {
    let ids = [1i64, 2, 3];
    let parents = [-1i64, 1, 2];
    ancestors(&ids, &parents, 3, true, excluded, buffer).count
}

// The same walk over snapshot records.
fn walk_records(excluded: i64, buffer: &mut [i64]) -> usize {
    let run = run_of(THREE);
    table_ancestors(run.metadata.snapshots, 3, true, excluded, buffer).count
}

// Parents 3, 2, 1: between 3 and 1 gives 3, 2; between 3 and 3 nothing.
fn say_walks(output: &mut Output) {
    let mut buffer = [0i64; 3];
    let to_first = walk_ids(1, &mut buffer);
    say(output, b"between 3 and 1: ");
    say_ids(output, &buffer, to_first);
    let to_itself = walk_ids(3, &mut buffer);
    say(output, b"; between 3 and 3: ");
    say_ids(output, &buffer, to_itself);
    let over_records = walk_records(1, &mut buffer);
    say(output, b"; over records, between 3 and 1: ");
    say_ids(output, &buffer, over_records);
}

pub fn say_leaf(output: &mut Output, leaf: Leaf) {
    match leaf {
        Leaf::Limits => say_limits(output),
        Leaf::Walks => say_walks(output),
    }
}
