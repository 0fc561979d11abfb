// Metadata: its single fields and its tables. The tables of statistics files and that of partition specs are not among them.
use crate::layout::put_card;
use crate::table::put_tables;
use cards::record::{identity, single_fields};
use records::metadata::TableMetadata;
use tokens::output::Output;

pub fn put_metadata(output: &mut Output, metadata: TableMetadata) {
    put_card(output, b"a$", 0, identity(metadata.fields));
    put_card(output, b"L$abAcde", 0, single_fields(metadata.fields));
    put_tables(output, metadata);
}
