// Schemas: flat lists of fields.
ghost use Rattle.std.specs.Prelude.{◌≡◌};
ghost use Rattle.records.specs.Blanks.{no_schema_field, no_schema, no_schemas, no_schema_offer, no_schema_ids};

use crate::capacities::{REMOVALS, SCHEMA_FIELDS, SCHEMAS};
use crate::counters::{FieldId, SchemaId};
use crate::text::Name;

// The types of a field.
pub const LONG: u8 = 1;

pub const TIMESTAMP: u8 = 2;

#[derive(Clone, Copy, PartialEq, Eq)]
pub struct SchemaField {
    pub id: FieldId,
    pub field_type: u8,
    pub name: Name,
}

#[derive(Clone, Copy, PartialEq, Eq)]
pub struct Schema {
    pub schema_id: SchemaId,
    pub items: [SchemaField; SCHEMA_FIELDS],
    pub count: usize,
}

// Ascending by id.
#[derive(Clone, Copy, PartialEq, Eq)]
pub struct Schemas {
    pub items: [Schema; SCHEMAS],
    pub count: usize,
}

// A schema as an update offers it: where its fields stand among the bytes that are lent to the run, and how many they are.
#[derive(Clone, Copy, PartialEq, Eq)]
pub struct SchemaOffer {
    pub schema_id: SchemaId,
    pub at: usize,
    pub count: usize,
}

// The ids of a removal.
#[derive(Clone, Copy, PartialEq, Eq)]
pub struct SchemaIds {
    pub items: [SchemaId; REMOVALS],
    pub count: usize,
}

impl SchemaField {
    pub fn blank() -> SchemaField
        ensures { result ≡ no_schema_field }
    {
        let name = Name::blank();
        SchemaField {
            id: FieldId(0),
            field_type: 0,
            name,
        }
    }
}

impl Schema {
    pub fn blank() -> Schema
        ensures { result ≡ no_schema }
    {
        let none = SchemaField::blank();
        let items = [none; SCHEMA_FIELDS];
        Schema {
            schema_id: SchemaId(0),
            items,
            count: 0,
        }
    }
}

impl Schemas {
    pub fn blank() -> Schemas
        ensures { result ≡ no_schemas }
    {
        let none = Schema::blank();
        let items = [none; SCHEMAS];
        Schemas { items, count: 0 }
    }
}

impl SchemaOffer {
    pub fn blank() -> SchemaOffer
        ensures { result ≡ no_schema_offer }
    {
        SchemaOffer {
            schema_id: SchemaId(0),
            at: 0,
            count: 0,
        }
    }
}

impl SchemaIds {
    pub fn blank() -> SchemaIds
        ensures { result ≡ no_schema_ids }
    {
        let none = SchemaId(0);
        let items = [none; REMOVALS];
        SchemaIds { items, count: 0 }
    }
}
