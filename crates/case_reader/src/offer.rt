// What an update offers, as bytes that are lent to a run: the fields of a schema or of a partition spec stand one after the other, from a place on that
// is the update's own.
use crate::partition::read_partition_field;
use crate::schema::read_field;
use cards::card::wide;
use records::capacities::{
    FIELD_BYTES, NAME, PARTITION_BYTES, PARTITION_FIELDS, SCHEMA_FIELDS, UPDATES,
};
use records::counters::{SchemaId, SpecId};
use records::partition::{OfferedId, PartitionField, SpecOffer};
use records::schema::{SchemaField, SchemaOffer};
use records::text::Name;
use slot_bounds::{store_byte, with_slots};
use std::num::{wrapping_add_usize, wrapping_sub_u64};
use tokens::field::{read_count, read_i32};
use tokens::input::Input;
use tokens::number::absolute;

// Where the offer of the update at a place of the list starts.
pub fn place_of(update: usize) -> usize {
    with_slots(update, UPDATES) * (SCHEMA_FIELDS * FIELD_BYTES)
}

// A number below 0 is told by what it lacks to 2^32: no field has such an id, and no bucket such a number.
fn number_of(signed: i32) -> u64 {
    let magnitude = absolute(wide(signed));
    if signed < 0 {
        return wrapping_sub_u64(4294967296, magnitude);
    }
    magnitude
}

// Four bytes, the lowest first.
fn put_number(offers: &mut [u8], at: usize, signed: i32) {
    let number = number_of(signed);
    store_byte(offers, at, (number % 256) as u8);
    store_byte(
        offers,
        wrapping_add_usize(at, 1),
        (number / 256 % 256) as u8,
    );
    store_byte(
        offers,
        wrapping_add_usize(at, 2),
        (number / 65536 % 256) as u8,
    );
    store_byte(
        offers,
        wrapping_add_usize(at, 3),
        (number / 16777216 % 256) as u8,
    );
}

// One byte of its length, the name. A length that has no byte of its own stays above that of any name.
fn put_name(offers: &mut [u8], at: usize, name: Name) {
    store_byte(offers, at, with_slots(name.len, 255) as u8);
    for i in 0..NAME {
        store_byte(offers, wrapping_add_usize(at, 1 + i), name.bytes[i]);
    }
}

// Its id, its type, its name. A field past the last slot is read and not kept.
fn put_field(offers: &mut [u8], from: usize, i: usize, field: SchemaField) {
    if i < SCHEMA_FIELDS {
        let at = wrapping_add_usize(from, i * FIELD_BYTES);
        put_number(offers, at, field.id.0);
        store_byte(offers, wrapping_add_usize(at, 4), field.field_type);
        put_name(offers, wrapping_add_usize(at, 5), field.name);
    }
}

// Its source's id, its transform, the number of its buckets, its name; its own id stands in the update. A field past the last slot is read and not kept.
fn put_partition_field(offers: &mut [u8], from: usize, i: usize, field: PartitionField) {
    if i < PARTITION_FIELDS {
        let at = wrapping_add_usize(from, i * PARTITION_BYTES);
        put_number(offers, at, field.source_id.0);
        store_byte(offers, wrapping_add_usize(at, 4), field.transform);
        put_number(offers, wrapping_add_usize(at, 5), field.buckets.0);
        put_name(offers, wrapping_add_usize(at, 9), field.name);
    }
}

pub fn read_schema_offer(
    is_named: bool,
    input: &mut Input,
    offers: &mut [u8],
    at: usize,
) -> SchemaOffer {
    let id = SchemaId(read_i32(input));
    let count = read_count(input);
    for i in 0..count {
        if !input.is_good() {
            break;
        }
        let field = read_field(is_named, input);
        put_field(offers, at, i, field);
    }
    SchemaOffer {
        schema_id: id,
        at,
        count,
    }
}

// The id of a field in its update, as its flag and its number stand.
fn id_of(field: PartitionField) -> OfferedId {
    let given = field.has_id;
    let id = field.field_id;
    OfferedId { given, id }
}

pub fn read_spec_offer(input: &mut Input, offers: &mut [u8], at: usize) -> SpecOffer {
    let mut offer = SpecOffer::blank();
    let id = SpecId(read_i32(input));
    let count = read_count(input);
    for i in 0..count {
        if !input.is_good() {
            break;
        }
        let field = read_partition_field(input);
        put_partition_field(offers, at, i, field);
        if i < PARTITION_FIELDS {
            offer.ids[i] = id_of(field);
        }
    }
    offer.spec_id = id;
    offer.at = at;
    offer.count = count;
    offer
}
