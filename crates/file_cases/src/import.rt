// Case 21: a file, imported.
use case_reader::more::{OFFICE, OWNERS, STATISTICS, table_of};
use case_reader::text::read_slots;
use case_writer::metadata::put_metadata;
use case_writer::table::put_table;
use file_import::{Imported, import};
use records::metadata::TableMetadata;
use slot_bounds::lent;
use tokens::field::read_up_to;
use tokens::input::Input;
use tokens::number::{put_count, put_u8};
use tokens::output::Output;

// The kind of an import among the cases.
pub const IMPORT: u64 = 21;

// The longest file.
const LONGEST: u64 = 65536;

// The tables and the owners, as a run that is given them answers them.
fn put_given(output: &mut Output, metadata: TableMetadata) {
    for tag in STATISTICS..=OWNERS {
        if tag != OFFICE {
            put_table(output, metadata, table_of(tag));
        }
    }
}

// The number, the place, how many members are skipped, and the metadata where there is any.
fn put_imported(output: &mut Output, imported: Imported) {
    let number = imported.number;
    put_u8(output, number);
    put_count(output, imported.place);
    put_count(output, imported.skipped);
    if number == 0 {
        put_metadata(output, imported.metadata);
        put_given(output, imported.metadata);
    }
}

fn answer_text(text: &[u8], len: usize, output: &mut Output) {
    let n = lent(text, len);
    put_imported(output, import(&text[..n]));
}

pub fn answer(input: &mut Input, output: &mut Output) {
    let mut text = io::large_buffer();
    let len = read_up_to(input, LONGEST) as usize;
    read_slots(input, &mut text, len);
    if input.is_good() {
        answer_text(&text, len, output);
    }
}
