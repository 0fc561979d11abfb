// What is said of a list, item by item: that it has no elements, or its elements, and behind them how many are counted that have no slot.
use crate::card::{Card, FIELDS, IDS, List, NOTHING, SORTED_FIELDS, counted, number_at};
use crate::field::field;
use crate::partition::partition_field;
use records::capacities::{PARTITION_FIELDS, SCHEMA_FIELDS, SORT_FIELDS};
use slot_bounds::with_slots;

// The kind of an item is that of its list, where it is an element of it.
const LEFT_OUT: u8 = 5;

pub fn items(list: List) -> usize {
    let count = list.count;
    if count == 0 {
        return 1;
    }
    let slots = with_slots(list.slots, SCHEMA_FIELDS);
    if count > slots { slots + 1 } else { count }
}

// Three numbers, and behind them whether another stands before it.
fn sorted_field(list: List, i: usize) -> Card {
    let at = 3 * with_slots(i, SORT_FIELDS);
    Card::of_numbers(
        [
            number_at(list, at),
            number_at(list, at + 1),
            number_at(list, at + 2),
            (i > 0) as i64,
            0,
            0,
            0,
            0,
        ],
        [0, 0],
    )
}

// A field of a schema. Past the slots it is the last.
fn field_at(list: List, i: usize) -> Card {
    let at = with_slots(i, SCHEMA_FIELDS - 1);
    let f = list.fields[at];
    field(f, i > 0)
}

// A field of a partition spec. Past the slots it is the last.
fn partition_at(list: List, i: usize) -> Card {
    let at = with_slots(i, PARTITION_FIELDS - 1);
    let f = list.partitions[at];
    partition_field(f, i > 0)
}

pub fn element(list: List, i: usize) -> Card {
    let kind = list.kind;
    match kind {
        IDS => Card::of_numbers(
            [number_at(list, i), 0, 0, (i > 0) as i64, 0, 0, 0, 0],
            [0, 0],
        ),
        FIELDS => field_at(list, i),
        SORTED_FIELDS => sorted_field(list, i),
        _ => partition_at(list, i),
    }
}

pub fn item_at(list: List, i: usize) -> Card {
    if list.count == 0 {
        return Card::of_number(0).with_kind(NOTHING);
    }
    if i < list.slots {
        return element(list, i).with_kind(list.kind);
    }
    counted(list.count, list.slots).with_kind(LEFT_OUT)
}
