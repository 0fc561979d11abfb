// What is written of a run that was wanted.
use cards::table::{OF_FILES, only_files};
use case_reader::more::{Given, OWNERS, STATISTICS, table_of};
use case_writer::metadata::put_metadata;
use case_writer::table::put_table;
use case_writer::update::put_updates;
use records::metadata::TableMetadata;
use records::run::Answer;
use tokens::number::{put_count, put_u8};
use tokens::output::Output;

// The tables and owners that the run was given, as the metadata that is answered has them. One call writes them all, so that less stack is needed.
fn put_given(output: &mut Output, given: Given, metadata: TableMetadata) {
    for tag in STATISTICS..=OWNERS {
        if given.has(tag) {
            put_table(output, metadata, table_of(tag));
        }
    }
}

// The answer in numbers, a line. The offers are those of the run: the change log names them. Where the run was given the names of its schemas, an added one
// has its names too.
// Each function that gets the answer copies it, so it is not handed on: less stack is needed.
pub fn put_answer_of(output: &mut Output, given: Given, answer: Answer, offers: &[u8]) {
    put_u8(output, answer.number);
    put_count(output, answer.place);
    put_metadata(output, answer.metadata);
    put_updates(output, answer.changes, offers, given.schemas);
    put_table(output, only_files(answer.expired), OF_FILES);
    put_given(output, given, answer.metadata);
    output.end_line();
}
