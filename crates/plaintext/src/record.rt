// The records, each as one of the elements of its table is said, and the lists that they have.
use crate::template::say_part;
use cards::card::{Card, List, NOTHING};
use cards::item::{item_at, items};
use tokens::output::Output;

// A template for each kind of item: the word for no elements, an id, a field of a schema, of which its name and type are said unless it is a long that
// is named by its id, the source id, direction and nulls of a sort field, the transform, source id, name and id of a partition field, and how many
// more are counted than there are slots for.
fn say_list(output: &mut Output, list: List) {
    let templates = b"none\
        ;?3{|, }#0\
        ;?3{|, }#0?2{| $ (long)| $ (timestamp)~ $ (type #1)}\
        ;?3{|, }#0 ?1{ascending|descending~in direction #1} nulls ?2{first|last~#2}\
        ;?3{|, }?4{transform #4|identity|year|month|day|bucket~transform #4}?6{| #5} of field #0 as $ (?1{no id|id #2})\
        ; and %1 more";
    let n = items(list);
    for i in 0..n {
        let item = item_at(list, i);
        say_part(output, templates, item.kind as usize, 0, item);
    }
}

// The template of the ids of a removal, behind those of the elements of each table.
pub const OF_IDS: usize = 9;

// As `5 (parent 4, sequence 7, at 300000 (1970-01-01 00:05:00 UTC))`. Past the last template nothing is said.
pub fn say_record(output: &mut Output, record: usize, card: Card) {
    let templates =
        b"#0 (?1{no parent|parent #2}, sequence #3, at #4 (@4)?5{|, %1 rows from row %0})\
        ;?1{ref of kind #1|branch|tag~ref of kind #1} $ at snapshot #0\
        ?2{|, keeps at least #3 snapshots}?4{|, keeps snapshots for #5 ms}?6{|, stays for #7 ms}!1{|, of office %0}\
        ;#0 from #1 (@1)\
        ;$ from #0 (@0)\
        ;#0 (fields: *)\
        ;#0 (fields: *)\
        ;snapshot #0: file $, #1 bytes\
        ;snapshot #0: file $, #1 bytes\
        ;#0 (fields: *)\
        ;*";
    say_part(output, templates, record, 0, card);
    if card.list.kind != NOTHING {
        say_list(output, card.list);
        say_part(output, templates, record, 1, card);
    }
}
