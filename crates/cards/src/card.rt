// A card: the single numbers of a record, of either sign and wide, its text and its list. What a record has not is blank.
use records::capacities::{PARTITION_FIELDS, SCHEMA_FIELDS, TEXT};
use records::partition::PartitionField;
use records::schema::SchemaField;
use slot_bounds::with_slots;

pub const SIGNED: usize = 8;

pub const UNSIGNED: usize = 2;

// A name, a location, a path or a uuid: its slots are the first so many of the bytes.
#[derive(Clone, Copy)]
pub struct Text {
    pub bytes: [u8; TEXT],
    pub slots: usize,
    pub len: usize,
}

// What a list has for elements: nothing, where the record has no list; ids; the fields of a schema; those of a sort order, three numbers each; those of
// a partition spec.
pub const NOTHING: u8 = 0;

pub const IDS: u8 = 1;

pub const FIELDS: u8 = 2;

pub const SORTED_FIELDS: u8 = 3;

pub const PARTITIONS: u8 = 4;

// The fields of a schema or of a partition spec, or the numbers of other elements, one after the other.
#[derive(Clone, Copy)]
pub struct List {
    pub kind: u8,
    pub numbers: [i64; SCHEMA_FIELDS],
    pub fields: [SchemaField; SCHEMA_FIELDS],
    pub partitions: [PartitionField; PARTITION_FIELDS],
    pub slots: usize,
    pub count: usize,
}

// The kind is that of an update; of a record it is 0.
#[derive(Clone, Copy)]
pub struct Card {
    pub kind: u8,
    pub signed: [i64; SIGNED],
    pub unsigned: [u64; UNSIGNED],
    pub text: Text,
    pub list: List,
}

impl Text {
    pub fn blank() -> Text {
        Text {
            bytes: [0; TEXT],
            slots: 0,
            len: 0,
        }
    }
}

impl List {
    pub fn blank() -> List {
        let field = SchemaField::blank();
        let partition = PartitionField::blank();
        List {
            kind: NOTHING,
            numbers: [0; SCHEMA_FIELDS],
            fields: [field; SCHEMA_FIELDS],
            partitions: [partition; PARTITION_FIELDS],
            slots: 0,
            count: 0,
        }
    }

    pub fn of_numbers(kind: u8, numbers: [i64; SCHEMA_FIELDS], slots: usize, count: usize) -> List {
        let mut list = List::blank();
        list.kind = kind;
        list.numbers = numbers;
        list.slots = slots;
        list.count = count;
        list
    }

    pub fn of_fields(fields: [SchemaField; SCHEMA_FIELDS], count: usize) -> List {
        let mut list = List::blank();
        list.kind = FIELDS;
        list.fields = fields;
        list.slots = SCHEMA_FIELDS;
        list.count = count;
        list
    }

    pub fn of_partitions(partitions: [PartitionField; PARTITION_FIELDS], count: usize) -> List {
        let mut list = List::blank();
        list.kind = PARTITIONS;
        list.partitions = partitions;
        list.slots = PARTITION_FIELDS;
        list.count = count;
        list
    }
}

impl Card {
    pub fn of_numbers(signed: [i64; SIGNED], unsigned: [u64; UNSIGNED]) -> Card {
        let text = Text::blank();
        let list = List::blank();
        Card {
            kind: 0,
            signed,
            unsigned,
            text,
            list,
        }
    }

    pub fn of_number(number: i64) -> Card {
        Card::of_numbers([number, 0, 0, 0, 0, 0, 0, 0], [0, 0])
    }

    pub fn with_kind(mut self, kind: u8) -> Card {
        self.kind = kind;
        self
    }

    pub fn with_unsigned(mut self, unsigned: [u64; UNSIGNED]) -> Card {
        self.unsigned = unsigned;
        self
    }

    pub fn with_text(mut self, text: Text) -> Card {
        self.text = text;
        self
    }

    pub fn with_list(mut self, list: List) -> Card {
        self.list = list;
        self
    }
}

pub fn wide(number: i32) -> i64 {
    number as i64
}

// The bytes of a text of any of the types that hold one.
pub fn text_of(slots: &[u8], len: usize) -> Text {
    let mut bytes = [0u8; TEXT];
    let n = with_slots(slots.len(), TEXT);
    bytes[..n].copy_from_slice(&slots[..n]);
    Text {
        bytes,
        slots: n,
        len,
    }
}

// A number by its place; past the last it is 0.
pub fn signed_at(card: Card, at: usize) -> i64 {
    let numbers = card.signed;
    if at < SIGNED {
        return numbers[at];
    }
    0
}

pub fn unsigned_at(card: Card, at: usize) -> u64 {
    let numbers = card.unsigned;
    if at < UNSIGNED {
        return numbers[at];
    }
    0
}

// A count and how many of it are past the slots; before them whether each is above 0.
pub fn counted(count: usize, slots: usize) -> Card {
    let left_out = if count > slots { count - slots } else { 0 };
    Card::of_numbers(
        [(count > 0) as i64, (left_out > 0) as i64, 0, 0, 0, 0, 0, 0],
        [count as u64, left_out as u64],
    )
}

pub fn number_at(list: List, at: usize) -> i64 {
    let numbers = list.numbers;
    if at < SCHEMA_FIELDS {
        return numbers[at];
    }
    0
}
