// A card by its layout, which has a letter for each token: `a` is the first signed number, `b` the next; `A` and `B` are the unsigned ones,
// `L` is the length of the text and `N` the count of the list. `$` stands for the bytes of the text. The list comes last, and each of its elements
// is a card too.
use crate::text::put_slots;
use cards::card::{Card, FIELDS, List, Text, signed_at, unsigned_at};
use cards::item::element;
use slot_bounds::{lent, with_slots};
use tokens::number::{put_i64, put_u64};
use tokens::output::Output;

fn put_text(output: &mut Output, text: Text) {
    let bytes = text.bytes;
    let slots: &[u8] = &bytes;
    let n = lent(slots, text.slots);
    put_slots(output, &slots[..n], text.len);
}

fn signed(card: Card, letter: u8) -> i64 {
    if letter < b'a' {
        return 0;
    }
    signed_at(card, (letter - b'a') as usize)
}

fn unsigned(card: Card, letter: u8) -> u64 {
    match letter {
        b'L' => card.text.len as u64,
        b'N' => card.list.count as u64,
        b'A' => unsigned_at(card, 0),
        _ => unsigned_at(card, 1),
    }
}

fn put_token(output: &mut Output, letter: u8, card: Card) {
    match letter {
        b'$' => put_text(output, card.text),
        b'A'..=b'Z' => put_u64(output, unsigned(card, letter)),
        _ => put_i64(output, signed(card, letter)),
    }
}

// By one of many layouts, a line each, counted from 0.
pub fn put_card(output: &mut Output, layouts: &[u8], line: usize, card: Card) {
    if let Some(letters) = layouts.split(|byte| *byte == b'\n').nth(line) {
        for &letter in letters {
            put_token(output, letter, card);
        }
    }
}

const NAMED_FIELDS: usize = 5;

// A field of a schema is written with its name and type, or by its id alone.
fn line_of(kind: u8, is_named: bool) -> usize {
    if is_named && kind == FIELDS {
        return NAMED_FIELDS;
    }
    kind as usize
}

// A line for each kind of list, in the order of their numbers, and one for fields with names.
fn put_list(output: &mut Output, is_named: bool, list: List) {
    let layouts = b"\n\
        a\n\
        a\n\
        abc\n\
        abcL$ef\n\
        aL$b\n";
    let line = line_of(list.kind, is_named);
    let n = with_slots(list.count, list.slots);
    for i in 0..n {
        put_card(output, layouts, line, element(list, i));
    }
}

// A card and its list.
pub fn put_record(output: &mut Output, layouts: &[u8], line: usize, is_named: bool, card: Card) {
    put_card(output, layouts, line, card);
    put_list(output, is_named, card.list);
}
