// What lists and tables have in common, and the tables of metadata.
use crate::number::say_count;
use crate::record::say_record;
use crate::template::say_part;
use crate::text::say;
use cards::card::counted;
use cards::table::{card_at, count_of, slots_of};
use records::metadata::TableMetadata;
use slot_bounds::with_slots;
use tokens::output::Output;

// What is counted beyond the slots was never held.
pub fn say_left_out(output: &mut Output, count: usize, slots: usize) {
    if count > slots {
        say(output, b" and ");
        say_count(output, count - slots);
        say(output, b" more");
    }
}

// Between the elements of a list within a line.
pub fn say_comma(output: &mut Output, at: usize) {
    if at > 0 {
        say(output, b", ");
    }
}

// In the place of a list that has no elements.
pub fn say_none(output: &mut Output, count: usize) {
    if count == 0 {
        say(output, b"none");
    }
}

// A line for a table, above those of its elements.
pub fn say_heading(output: &mut Output, heading: &[u8], count: usize) {
    say(output, b"  ");
    say(output, heading);
    say_part(output, b": %0\n", 0, 0, counted(count, 0));
}

// A line below them.
pub fn say_end(output: &mut Output, count: usize, slots: usize) {
    let template = b"?1{|    and %1 more\n}";
    say_part(output, template, 0, 0, counted(count, slots));
}

fn say_element(output: &mut Output, metadata: TableMetadata, table: usize, i: usize) {
    say(output, b"    ");
    say_record(output, table, card_at(metadata, table, i));
    say(output, b"\n");
}

// What stands below a heading.
pub fn say_elements(output: &mut Output, metadata: TableMetadata, table: usize) {
    let count = count_of(metadata, table);
    let slots = slots_of(table);
    let n = with_slots(count, slots);
    for i in 0..n {
        say_element(output, metadata, table, i);
    }
    say_end(output, count, slots);
}
