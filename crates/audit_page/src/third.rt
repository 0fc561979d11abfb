// The third question: whether the row ranges are apart, and whether an id can repeat from here on.
use cards::card::Card;
use plaintext::template::say_part;
use plaintext::text::say;
use records::metadata::{SingleFields, TableMetadata};
use row_ranges::rows_apart;
use tokens::output::Output;

// The format version from which on row ids are given out.
const ROWS_FROM: u8 = 3;

// Below that version there are no row ids.
fn words_of(version: u8, is_apart: bool) -> &'static [u8] {
    if version != ROWS_FROM {
        return b"   NO ROW IDS: this session's metadata has the version #0, and row ids are given out from version 3 on. Nothing is promised of them here.\n";
    }
    if !is_apart {
        return b"   NOT APART: a row id is held twice, or is not below the next row id %0, or the metadata is not well formed. An id can repeat.\n";
    }
    b"   APART: no row id is held twice, and all are below the next row id %0. From here on NO ID REPEATS, whatever runs follow.\n"
}

// version; next row id
fn card_of(fields: SingleFields) -> Card {
    Card::of_numbers(
        [fields.format_version as i64, 0, 0, 0, 0, 0, 0, 0],
        [fields.next_row_id.0, 0],
    )
}

pub fn say_third(output: &mut Output, metadata: TableMetadata) {
    let fields = metadata.fields;
    let words = words_of(fields.format_version, rows_apart(metadata));
    say(
        output,
        b"\n3. Are the row ranges that are held apart, and can an id repeat from here on?\n",
    );
    say_part(output, words, 0, 0, card_of(fields));
    say(
        output,
        b"   Proved: rows-apart-unique. The test says exactly that. Over any runs from there, each from what the one before answered, ranges ascend and no\
        \n   row id lies in two of them (run-rows-disjoint), none is given out that was held before (run-rows-never-held), and the test stays true\
        \n   (run-rows-apart-stays).\
        \n   It rests on every change going through such a run: not through other writers, and not through an older file that is put back.\n",
    );
}
