// The ids of the schemas and how many fields each has, as a run holds them beside the table: the table is large, and what is handed over is copied.
ghost use Rattle.std.specs.Prelude.{◌≡◌, List, [], ◌∷◌, ◌++◌, ◌<◌, eqb, length};
ghost use Rattle.rules.specs.Words.{any};
ghost use Rattle.rules.specs.Capacities.{schema_room};
ghost use Rattle.rules.specs.Register as plain;
ghost use Rattle.rules.specs.WellFormed.{has_schema};
ghost use Rattle.rules.specs.Layout.{read_schemas};
ghost use Rattle.search.specs.Places.{index_of};
ghost use Rattle.tables.specs.Laid.{LaidSchemas};
ghost use Rattle.schema_updates.specs.Keys.{laid_keys, KeysFit};

use builder::builder::TableMetadataBuilder;
use records::capacities::SCHEMAS;
use records::counters::SchemaId;
use records::replies::ACCEPTED;
use records::schema::Schemas;
use search::position;
use tables::keys::schema_key;

// In table order, and zeros after them.
#[derive(Clone, Copy)]
pub struct SchemaKeys {
    pub items: [i64; SCHEMAS],
    pub sizes: [usize; SCHEMAS],
    pub count: usize,
}

fn no_keys() -> SchemaKeys
    ensures keys_fit { KeysFit result }
    ensures value { result ≡ laid_keys [] }
{
    let items = [0i64; SCHEMAS];
    let sizes = [0usize; SCHEMAS];
    SchemaKeys {
        items,
        sizes,
        count: 0,
    }
}

// One schema more at the end of the table.
pub fn with_key(keys: SchemaKeys, id: SchemaId, size: usize) -> SchemaKeys
    requires keys_fit { KeysFit keys }
    requires count_lt_schema_room { keys.count < schema_room }
    ensures keys_fit_2 { KeysFit result }
    ensures value { (l : List plain.Schema) (s : plain.Schema) → keys ≡ laid_keys l → s.id ≡ id.0 → length s.fields ≡ size → result ≡ laid_keys (l ++ (s ∷ [])) }
{
    let n = keys.count;
    let k = schema_key(id);
    let x = k.0;
    let mut r = keys;
    r.items[n] = x;
    r.sizes[n] = size;
    r.count = n + 1;
    r
}

pub fn keys_of(t: Schemas) -> SchemaKeys
    requires { LaidSchemas t }
    ensures keys_fit { KeysFit result }
    ensures value { result ≡ laid_keys (read_schemas t) }
{
    let mut keys = no_keys();
    for schema in &t.items[..t.count] {
        keys = with_key(keys, schema.schema_id, schema.count);
    }
    keys
}

// Those of metadata that the start of a run accepts; none where it is refused.
pub fn keys_at_start(t: Schemas, number: u8) -> SchemaKeys
    requires { number ≡ 0 → LaidSchemas t }
    ensures keys_fit { KeysFit result }
    ensures value { number ≡ 0 → result ≡ laid_keys (read_schemas t) }
{
    if number == ACCEPTED {
        return keys_of(t);
    }
    no_keys()
}

// Where the current schema stands in the table.
pub fn current_place(b: TableMetadataBuilder, keys: SchemaKeys) -> usize
    requires { KeysFit keys }
    ensures { (l : List plain.Schema) → keys ≡ laid_keys l → result ≡ index_of (has_schema b.fields.current_schema_id.0) l }
{
    let n = keys.count;
    let ids = keys.items;
    let f = b.fields;
    let k = schema_key(f.current_schema_id);
    position(&ids[..n], k.0)
}

// A schema has so many fields.
pub fn has_size(keys: SchemaKeys, size: usize) -> bool
    requires { KeysFit keys }
    ensures { (l : List plain.Schema) → keys ≡ laid_keys l → result ≡ any (λ s. eqb (length s.fields) size) l }
{
    keys.sizes[..keys.count].contains(&size)
}
