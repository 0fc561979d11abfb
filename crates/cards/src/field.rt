// A field of a schema as a card, and what it is named where it has no name of its own.
use crate::card::{Card, wide};
use crate::record::name_text;
use records::capacities::NAME;
use records::schema::{LONG, SchemaField, TIMESTAMP};
use records::text::Name;
use tokens::number::absolute;

// An id in decimal digits, with a `-` in front if it is below 0.
pub fn plain_name(id: i32) -> Name {
    let mut digits = [0u8; 20];
    let n = io::decimal(absolute(wide(id)), &mut digits);
    let mut bytes = [0u8; NAME];
    let mut len: usize = 0;
    if id < 0 {
        bytes[0] = b'-';
        len = 1;
    }
    for (byte, &digit) in bytes[len..].iter_mut().zip(&digits[..n]) {
        *byte = digit;
    }
    Name {
        bytes,
        len: len + n,
    }
}

// What is told of a field: its id alone, of a long that is named by it; its name and its type too, of another one.
const ID_ALONE: i64 = 0;

const AS_LONG: i64 = 1;

const AS_TIMESTAMP: i64 = 2;

const AS_OTHER: i64 = 3;

fn told(field: SchemaField) -> i64 {
    let field_type = field.field_type;
    if field_type == TIMESTAMP {
        return AS_TIMESTAMP;
    }
    if field_type != LONG {
        return AS_OTHER;
    }
    if field.name == plain_name(field.id.0) {
        return ID_ALONE;
    }
    AS_LONG
}

// id, type, what is told of it, whether another stands before it; name
pub fn field(f: SchemaField, follows: bool) -> Card {
    let numbers = Card::of_numbers(
        [
            wide(f.id.0),
            f.field_type as i64,
            told(f),
            follows as i64,
            0,
            0,
            0,
            0,
        ],
        [0, 0],
    );
    numbers.with_text(name_text(f.name))
}
