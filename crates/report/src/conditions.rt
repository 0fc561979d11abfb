// What a history needs to keep its answers, and rows to stay apart: said of metadata after its tables, and of a change log.
use plaintext::metadata::say_metadata;
use plaintext::text::say;
use records::metadata::TableMetadata;
use tokens::output::Output;

// The format version from which on row ids are given out.
const ROWS_FROM: u8 = 3;

#[derive(Clone, Copy)]
pub enum Condition {
    Whole,
    Apart,
    RemovesAndAdds,
}

fn words_of(condition: Condition, holds: bool) -> &'static [u8] {
    match (condition, holds) {
        (Condition::Whole, false) => {
            b"  history: the snapshot log names a snapshot that is not held, or the metadata is not well formed\n"
        }
        (Condition::Whole, true) => {
            b"  history: every snapshot that the snapshot log names is held\n"
        }
        (Condition::Apart, false) => {
            b"  row ranges: a row id is held twice or is not below the next row id, or the metadata is not well formed\n"
        }
        (Condition::Apart, true) => {
            b"  row ranges: no row id is held twice, and all are below the next row id\n"
        }
        (Condition::RemovesAndAdds, false) => {
            b"  history: no snapshot is both removed and added\n"
        }
        (Condition::RemovesAndAdds, true) => {
            b"  history: a snapshot is both removed and added\n"
        }
    }
}

pub fn say_condition(output: &mut Output, condition: Condition, holds: bool) {
    say(output, words_of(condition, holds));
}

pub fn say_with_conditions(output: &mut Output, metadata: TableMetadata) {
    say_metadata(output, metadata);
    say_condition(output, Condition::Whole, histories::is_whole(metadata));
    if metadata.fields.format_version == ROWS_FROM {
        say_condition(output, Condition::Apart, row_ranges::rows_apart(metadata));
    }
}
