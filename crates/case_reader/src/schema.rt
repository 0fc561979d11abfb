// Schemas, and the ids of a removal.
use crate::text::read_name;
use cards::field::plain_name;
use records::capacities::{REMOVALS, SCHEMA_FIELDS, SCHEMAS};
use records::counters::{FieldId, SchemaId};
use records::schema::{LONG, Schema, SchemaField, SchemaIds, Schemas};
use tokens::field::{read_count, read_i32, read_u8};
use tokens::input::Input;

// The id, and of a schema that is written with names the name and the type. Without them it is a long, named by its id.
pub fn read_field(is_named: bool, input: &mut Input) -> SchemaField {
    let id = read_i32(input);
    let mut name = plain_name(id);
    let mut field_type = LONG;
    if is_named {
        name = read_name(input);
        field_type = read_u8(input);
    }
    SchemaField {
        id: FieldId(id),
        field_type,
        name,
    }
}

fn read_schema(is_named: bool, input: &mut Input) -> Schema {
    let mut schema = Schema::blank();
    let id = SchemaId(read_i32(input));
    let count = read_count(input);
    for i in 0..count {
        if !input.is_good() {
            break;
        }
        let field = read_field(is_named, input);
        if i < SCHEMA_FIELDS {
            schema.items[i] = field;
        }
    }
    schema.schema_id = id;
    schema.count = count;
    schema
}

pub fn read_schemas(is_named: bool, input: &mut Input) -> Schemas {
    let mut table = Schemas::blank();
    let count = read_count(input);
    for i in 0..count {
        if !input.is_good() {
            break;
        }
        let schema = read_schema(is_named, input);
        if i < SCHEMAS {
            table.items[i] = schema;
        }
    }
    table.count = count;
    table
}

pub fn read_schema_ids(input: &mut Input) -> SchemaIds {
    let mut ids = SchemaIds::blank();
    let count = read_count(input);
    for i in 0..count {
        if !input.is_good() {
            break;
        }
        let id = SchemaId(read_i32(input));
        if i < REMOVALS {
            ids.items[i] = id;
        }
    }
    ids.count = count;
    ids
}
