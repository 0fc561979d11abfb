// The list that an expiry makes, in numbers: as the answer of a case, and as the run of it that `run` reads.
use crate::asked::{Asked, read_asked};
use case_reader::more::{Given, OFFICE, OWNERS, STATISTICS, table_of};
use case_reader::run::RUN_GIVEN_MORE;
use case_writer::metadata::put_metadata;
use case_writer::table::put_table;
use case_writer::update::put_updates;
use expiry::{Expiry, expiring_updates};
use records::metadata::TableMetadata;
use records::run::FIRST_OFFICE;
use records::update::UpdateList;
use tokens::input::Input;
use tokens::number::{put_count, put_flag, put_i64, put_u8, put_u64};
use tokens::output::Output;

// The count and the updates, which offer nothing.
pub fn put_list(output: &mut Output, list: UpdateList) {
    put_updates(output, list, b"", false);
}

fn read_expiry(input: &mut Input) -> Expiry {
    let asked = read_asked(input);
    expiring_updates(asked.metadata, asked.policy)
}

// Case 12: the number and the list.
pub fn answer(input: &mut Input, output: &mut Output) {
    let expiry = read_expiry(input);
    if input.is_good() {
        put_u8(output, expiry.number);
        put_list(output, expiry.updates);
    }
}

// The tags of the run of the list: of the tables and owners that were given, and of the office where it is not the first. Its tolerance is the usual one.
fn has_tag(given: Given, office: u8, tag: u64) -> bool {
    if tag == OFFICE {
        return office != FIRST_OFFICE;
    }
    given.has(tag)
}

fn count_of_tags(given: Given, office: u8) -> usize {
    (STATISTICS..=OWNERS)
        .filter(|tag| has_tag(given, office, *tag))
        .count()
}

fn put_tag(output: &mut Output, metadata: TableMetadata, office: u8, tag: u64) {
    put_u64(output, tag);
    if tag == OFFICE {
        put_u8(output, office);
    } else {
        put_table(output, metadata, table_of(tag));
    }
}

fn put_tags(output: &mut Output, metadata: TableMetadata, office: u8, given: Given) {
    put_count(output, count_of_tags(given, office));
    for tag in STATISTICS..=OWNERS {
        if has_tag(given, office, tag) {
            put_tag(output, metadata, office, tag);
        }
    }
}

// A line: the run of the list, without a file name and without a limit text.
pub fn put_run(output: &mut Output, asked: Asked, list: UpdateList) {
    put_u64(output, RUN_GIVEN_MORE);
    put_metadata(output, asked.metadata);
    put_i64(output, asked.policy.clock_ms.0);
    put_flag(output, false);
    put_flag(output, false);
    put_list(output, list);
    put_tags(output, asked.metadata, asked.policy.office, asked.given);
    output.end_line();
}
