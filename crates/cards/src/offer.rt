// What an update offers, read from the bytes that are lent to a run. A byte that is not there is 0.
ghost use Rattle.std.specs.Prelude.{◌<◌};

use crate::card::{Card, List, wide};
use records::capacities::{FIELD_BYTES, NAME, PARTITION_BYTES, PARTITION_FIELDS, SCHEMA_FIELDS};
use records::counters::{Buckets, FieldId};
use records::partition::{OfferedId, PartitionField, SpecOffer};
use records::schema::{SchemaField, SchemaOffer};
use records::text::Name;
use std::num::wrapping_add_usize;

fn number_of(byte: u8) -> u64
    ensures { result < 256 }
{
    byte as u64
}

fn byte_at(offers: &[u8], from: usize, at: usize) -> u8 {
    let place = wrapping_add_usize(from, at);
    if place < offers.len() {
        return offers[place];
    }
    0
}

// Four bytes, the lowest first.
fn number_at(offers: &[u8], at: usize) -> u64
    ensures { result < 4294967296 }
{
    let a = number_of(byte_at(offers, at, 0));
    let b = number_of(byte_at(offers, at, 1));
    let c = number_of(byte_at(offers, at, 2));
    let d = number_of(byte_at(offers, at, 3));
    a + 256 * (b + 256 * (c + 256 * d))
}

// A number below 0 is told by what it lacks to 2^32.
fn signed(number: u64) -> i32
    requires { number < 4294967296 }
{
    if number > 2147483647 {
        return (number as i64 - 4294967296) as i32;
    }
    number as i32
}

// The length of a name, the name.
fn name_at(offers: &[u8], at: usize) -> Name {
    let mut bytes = [0u8; NAME];
    for (i, byte) in bytes.iter_mut().enumerate() {
        *byte = byte_at(offers, at, 1 + i);
    }
    Name {
        bytes,
        len: number_of(byte_at(offers, at, 0)) as usize,
    }
}

// Its id, its type, its name.
fn field_at(offers: &[u8], at: usize) -> SchemaField {
    let id = signed(number_at(offers, at));
    let field_type = byte_at(offers, at, 4);
    let name = name_at(offers, wrapping_add_usize(at, 5));
    SchemaField {
        id: FieldId(id),
        field_type,
        name,
    }
}

fn fields(offer: SchemaOffer, offers: &[u8]) -> [SchemaField; SCHEMA_FIELDS] {
    let none = SchemaField::blank();
    let mut fields = [none; SCHEMA_FIELDS];
    for (i, field) in fields.iter_mut().enumerate() {
        let at = wrapping_add_usize(offer.at, i * FIELD_BYTES);
        *field = field_at(offers, at);
    }
    fields
}

// id; fields
pub fn schema_offer(offer: SchemaOffer, offers: &[u8]) -> Card {
    let list = List::of_fields(fields(offer, offers), offer.count);
    Card::of_number(wide(offer.schema_id.0)).with_list(list)
}

// Its source's id, its transform, the number of its buckets, its name; its own id stands in the update.
fn partition_at(offers: &[u8], at: usize, own: OfferedId) -> PartitionField {
    let source_id = signed(number_at(offers, at));
    let transform = byte_at(offers, at, 4);
    let buckets = signed(number_at(offers, wrapping_add_usize(at, 5)));
    let field_id = own.id;
    let name = name_at(offers, wrapping_add_usize(at, 9));
    PartitionField {
        source_id: FieldId(source_id),
        field_id,
        buckets: Buckets(buckets),
        transform,
        has_id: own.given,
        name,
    }
}

fn partitions(offer: SpecOffer, offers: &[u8]) -> [PartitionField; PARTITION_FIELDS] {
    let none = PartitionField::blank();
    let mut fields = [none; PARTITION_FIELDS];
    for (i, &own) in offer.ids.iter().enumerate() {
        let at = wrapping_add_usize(offer.at, i * PARTITION_BYTES);
        fields[i] = partition_at(offers, at, own);
    }
    fields
}

// id; fields
pub fn spec_offer(offer: SpecOffer, offers: &[u8]) -> Card {
    let list = List::of_partitions(partitions(offer, offers), offer.count);
    Card::of_number(wide(offer.spec_id.0)).with_list(list)
}
