// A table of metadata: its count, the elements that have slots, and what stands behind them.
use crate::layout::{put_card, put_record};
use cards::table::{OF_NAMED_SCHEMAS, OF_SORT_ORDERS, card_at, chosen_of, count_of, slots_of};
use records::metadata::TableMetadata;
use slot_bounds::with_slots;
use tokens::number::put_count;
use tokens::output::Output;

pub fn put_table(output: &mut Output, metadata: TableMetadata, table: usize) {
    // A line for each table, in the order of their numbers.
    let layouts = b"abcdefAB\n\
        L$abcdefgh\n\
        ab\n\
        L$a\n\
        aN\n\
        aN\n\
        aL$b\n\
        aL$b\n\
        aN\n\
        aN\n\
        A\n";
    // Behind the schemas stands the current one, behind the sort orders the default, behind the partition specs the default and the last partition id.
    let chosen = b"\n\n\n\na\na\n\n\nab\n\n\n";
    let is_named = table == OF_NAMED_SCHEMAS;
    let count = count_of(metadata, table);
    put_count(output, count);
    let n = with_slots(count, slots_of(table));
    for i in 0..n {
        let card = card_at(metadata, table, i);
        put_record(output, layouts, table, is_named, card);
    }
    put_card(output, chosen, table, chosen_of(metadata.fields, table));
}

// The tables that the case format has among metadata, in the order of their numbers.
pub fn put_tables(output: &mut Output, metadata: TableMetadata) {
    for table in 0..=OF_SORT_ORDERS {
        put_table(output, metadata, table);
    }
}
