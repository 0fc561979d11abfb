// Updates: a kind, then what that kind uses. Nothing follows an unknown kind.
use crate::layout::put_record;
use cards::card::Card;
use cards::update::{ADD_NAMED_SCHEMA, update};
use records::capacities::UPDATES;
use records::update::{ADD_SCHEMA, UpdateList};
use slot_bounds::with_slots;
use tokens::number::{put_count, put_u8};
use tokens::output::Output;

// Where fields are written with names, an added schema is of a kind of its own.
fn written_kind(kind: u8, is_named: bool) -> u8 {
    if is_named && kind == ADD_SCHEMA {
        return ADD_NAMED_SCHEMA;
    }
    kind
}

// A line for each kind, in the order of their numbers; that of 0 and those past the last are empty.
pub fn put_update(output: &mut Output, is_named: bool, card: Card) {
    let layouts = b"\n\
        $\n\
        a\n\
        L$\n\
        abcdefAB\n\
        L$abcdefAB\n\
        N\n\
        L$abcdefgh\n\
        L$\n\
        aN\n\
        a\n\
        N\n\
        aN\n\
        a\n\
        aL$b\n\
        a\n\
        aL$b\n\
        a\n\
        aN\n\
        a\n\
        N\n\
        aN\n";
    let kind = written_kind(card.kind, is_named);
    put_u8(output, kind);
    put_record(output, layouts, kind as usize, is_named, card);
}

pub fn put_updates(output: &mut Output, list: UpdateList, offers: &[u8], is_named: bool) {
    let count = list.count;
    put_count(output, count);
    let n = with_slots(count, UPDATES);
    for &u in &list.items[..n] {
        put_update(output, is_named, update(u, offers));
    }
}
