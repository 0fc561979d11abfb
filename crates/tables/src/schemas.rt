// The table of schemas.
ghost use Rattle.std.specs.Prelude.{◌≡◌, ℕ, true, not, pos, get_or};
ghost use Rattle.std.proofs.Math.Option.{some};
ghost use Rattle.std.specs.Int.{w32};
ghost use Rattle.std.proofs.Common.{SFits};
ghost use Rattle.rules.specs.Words.{first, keep, is_in, same_list};
ghost use Rattle.rules.specs.Capacities.{schema_room, schema_field_room};
ghost use Rattle.rules.specs.WellFormed.{has_schema, field_ids};
ghost use Rattle.rules.specs.SchemaUpdates.{holds_schema, same_schema_field, schema_ids};
ghost use Rattle.rules.specs.Layout.{pad, read_schema, read_schemas, laid_schemas, read_schema_ids};
ghost use Rattle.search.specs.Places.{index_of};
ghost use Rattle.tables.specs.Laid.{LaidSchema, LaidSchemas, LaidSchemaIds};

use crate::ids::has_schema;
use crate::keys::schema_key;
use crate::runs::{holds_key, keep_into, keys_of, position_of};
use equality::read::same_fields;
use records::capacities::{SCHEMA_FIELDS, SCHEMAS};
use records::counters::SchemaId;
use records::schema::{Schema, SchemaIds, Schemas};

// The ids, in table order, and zeros after them.
pub fn ids_of(t: Schemas) -> [i64; SCHEMAS]
    requires { LaidSchemas t }
    ensures value { result ≡ pad schema_room (pos 0) (schema_ids (read_schemas t)) }
    ensures by_index { (k : ℕ) → SFits w32 (get_or result k (pos 0)) }
{
    keys_of(&t.items[..t.count])
}

pub fn holds(t: Schemas, id: SchemaId) -> bool
    requires { LaidSchemas t }
    ensures { result ≡ holds_schema (read_schemas t) id.0 }
{
    holds_key(&t.items[..t.count], schema_key(id))
}

// The schema of an id that is held.
pub fn get(t: Schemas, id: SchemaId) -> Schema
    requires laid_schemas { LaidSchemas t }
    requires id_value { holds_schema (read_schemas t) id.0 ≡ true }
    ensures t_value { first (has_schema id.0) (read_schemas t) ≡ some (read_schema result) }
    ensures laid_schema { LaidSchema result }
{
    t.items[position_of(&t.items[..t.count], schema_key(id))]
}

// The ids of the fields, in order, and zeros after them.
pub fn field_ids_of(s: Schema) -> [i64; SCHEMA_FIELDS]
    requires { LaidSchema s }
    ensures value { result ≡ pad schema_field_room (pos 0) (field_ids (read_schema s)) }
    ensures by_index { (k : ℕ) → SFits w32 (get_or result k (pos 0)) }
{
    keys_of(&s.items[..s.count])
}

// Where the first with equal fields stands; the count where there is none.
pub fn find_equal(t: Schemas, s: Schema) -> usize
    requires laid_schemas { LaidSchemas t }
    requires laid_schema { LaidSchema s }
    ensures { result ≡ index_of (λ x. same_list same_schema_field x.fields (read_schema s).fields) (read_schemas t) }
{
    for (i, held) in t.items[..t.count].iter().enumerate() {
        if same_fields(*held, s) {
            return i;
        }
    }
    t.count
}

pub fn without(t: Schemas, ids: SchemaIds) -> Schemas
    requires laid_schemas { LaidSchemas t }
    requires laid_schema_ids { LaidSchemaIds ids }
    ensures { result ≡ laid_schemas (keep (λ s. not (is_in (read_schema_ids ids) s.id)) (read_schemas t)) }
{
    let mut rest = Schemas::blank();
    rest.count = keep_into(&t.items[..t.count], &mut rest.items, |s| {
        !has_schema(ids, s.schema_id)
    });
    rest
}
