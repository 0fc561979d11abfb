// Schemas: adding, choosing the current one, removing.
// Document 01, "Rules for each update", and of names that are taken document 02, request (ix), as the crate `rules` writes it in SchemaUpdates.
#![tactic(auto)]

ghost use Rattle.std.specs.Prelude.{◌≡◌, true, ltb, pos, length, get_or};
ghost use Rattle.std.proofs.Math.IntN.{suc_ℤ};
ghost use Rattle.records.specs.Blanks.{no_schemas_part};
ghost use Rattle.rules.specs.Words.{eq_z, larger, highest as highestOf, is_in, keep};
ghost use Rattle.rules.specs.Capacities.{largest_schema_id};
ghost use Rattle.rules.specs.Register.{Terms, State};
ghost use Rattle.rules.specs.WellFormed.{field_ids, update_formed};
ghost use Rattle.rules.specs.SchemaUpdates.{set_current_schema_checks, set_current_schema};
ghost use Rattle.rules.specs.Layout.{given, read_schema, read_schema_ids, laid_schema_ids};
ghost use Rattle.rules.specs.Kinds.{is_tidy_update, read_kind, of_kind, with_schemas_part, with_schema_id, add_schema_kind, set_current_schema_kind, remove_schemas_kind};
ghost use Rattle.tables.specs.Laid.{LaidSchema, LaidSchemaIds};
ghost use Rattle.builder.specs.Pieces.{laid_builder};
ghost use Rattle.builder.specs.Answers.{Answers, Decides};
ghost use Rattle.builder.specs.Added.{Numbered};
ghost use Rattle.schema_updates.specs.Keys.{laid_keys, lent_keys, KeysFit};
ghost use Rattle.schema_updates.specs.Schemas.{schema_under, SchemaGrown, SchemaDecided};

use builder::builder::TableMetadataBuilder;
use builder::checks::choose;
use builder::choice::{choose_id, reuse_or_create_new_id};
use builder::decision::{Decision, decided};
use keys::SchemaKeys;
use offers::OfferedSchema;
use records::capacities::SCHEMAS;
use records::counters::{FieldId, SchemaId};
use records::replies::{
    ACCEPTED, CURRENT_SCHEMA_REMOVED, IDS_EXHAUSTED, NAME_CLASH, TABLE_FULL, UPDATE_NOT_FORMED,
};
use records::schema::{Schema, SchemaIds};
use records::update::TableUpdate;
use search::{Key, highest};
use tables::ids::{has_schema, push_schema};
use tables::keys::{field_id, field_key, schema_id, schema_key};
use tables::schemas::field_ids_of;

pub mod keys;

// ---- add schema

const LARGEST: i64 = i32::MAX as i64;

// The id that an added schema gets: that of a held one with the same fields, if one is found, else the next, unless ids are exhausted.
#[derive(Clone, Copy)]
pub struct SchemaNumbered {
    pub found: bool,
    pub exhausted: bool,
    pub is_last: bool,
    pub id: SchemaId,
}

fn reuse_or_create_new_schema_id(
    keys: SchemaKeys,
    equal: usize,
    has_last: bool,
    last: SchemaId,
) -> SchemaNumbered
    requires { KeysFit keys }
    ensures { Numbered (given (ltb equal (length (lent_keys keys))) (get_or (lent_keys keys) equal (pos 0))) (eq_z (highestOf (lent_keys keys)) largest_schema_id) (suc_ℤ (highestOf (lent_keys keys))) (given has_last last.0) result.found result.exhausted result.is_last result.id.0 }
{
    let n = keys.count;
    let ids = keys.items;
    let k = schema_key(last);
    let x = reuse_or_create_new_id(&ids[..n], equal, Key(LARGEST), has_last, k);
    let id = schema_id(x.id);
    SchemaNumbered {
        found: x.found,
        exhausted: x.exhausted,
        is_last: x.is_last,
        id,
    }
}

// The last column id once the schema is added.
fn last_column(old: FieldId, s: Schema) -> FieldId
    requires { LaidSchema s }
    ensures { result.0 ≡ larger old.0 (highestOf (field_ids (read_schema s))) }
{
    let n = s.count;
    let ids = field_ids_of(s);
    let k = field_key(old);
    let top = highest(&ids[..n]);
    let column = search::larger(k, top);
    field_id(column)
}

// The id is the one to log, and where the table grows that of the new schema.
#[derive(Clone, Copy)]
pub struct SchemaAdded {
    pub number: u8,
    pub logs: bool,
    pub grows: bool,
    pub schema_id: SchemaId,
    pub builder: TableMetadataBuilder,
}

// Of a schema none of whose names is taken.
fn schema_addition(
    b: TableMetadataBuilder,
    keys: SchemaKeys,
    equal: usize,
    s: Schema,
) -> SchemaAdded
    requires keys_fit { KeysFit keys }
    requires laid_schema { LaidSchema s }
    ensures { SchemaGrown b keys equal s result }
{
    let n = keys.count;
    let offered = s.schema_id;
    let x = reuse_or_create_new_schema_id(keys, equal, b.has_schema, b.last_added_schema_id);
    let found = x.found;
    let exhausted = x.exhausted;
    let id = x.id;
    let mut c = b;
    c.has_schema = true;
    c.last_added_schema_id = id;
    if found {
        return SchemaAdded {
            number: ACCEPTED,
            logs: !x.is_last,
            grows: false,
            schema_id: offered,
            builder: c,
        };
    }
    let later = choose(n >= SCHEMAS, TABLE_FULL, ACCEPTED);
    let number = choose(exhausted, IDS_EXHAUSTED, later);
    let mut f = b.fields;
    let column = last_column(f.last_column_id, s);
    f.last_column_id = column;
    c.fields = f;
    SchemaAdded {
        number,
        logs: true,
        grows: number == ACCEPTED,
        schema_id: id,
        builder: c,
    }
}

// ---- set schema

// The id is the one to log.
#[derive(Clone, Copy)]
pub struct SchemaSet {
    pub number: u8,
    pub logs: bool,
    pub schema_id: SchemaId,
    pub builder: TableMetadataBuilder,
}

fn schema_choice(b: TableMetadataBuilder, keys: SchemaKeys, id: SchemaId) -> SchemaSet
    requires { KeysFit keys }
    ensures { (st : State) → b ≡ laid_builder st → keys ≡ laid_keys st.metadata.schemas → Answers (set_current_schema_checks id.0 st) st (set_current_schema id.0 st) result.number result.logs result.builder (with_schemas_part (with_schema_id result.schema_id no_schemas_part) (of_kind set_current_schema_kind)) }
{
    let mut f = b.fields;
    let n = keys.count;
    let ids = keys.items;
    let asked = schema_key(id);
    let last = schema_key(b.last_added_schema_id);
    let current = schema_key(f.current_schema_id);
    let x = choose_id(asked, b.has_schema, last, current, &ids[..n]);
    let chosen = schema_id(x.id);
    let logged = schema_id(x.logged);
    f.current_schema_id = chosen;
    let mut c = b;
    c.fields = f;
    SchemaSet {
        number: x.number,
        logs: !x.unchanged,
        schema_id: logged,
        builder: c,
    }
}

// ---- remove schemas

// The ids of the table that are named, in table order.
fn held(keys: SchemaKeys, named: SchemaIds) -> SchemaIds
    requires keys_fit { KeysFit keys }
    requires laid_schema_ids { LaidSchemaIds named }
    ensures { result ≡ laid_schema_ids (keep (is_in (read_schema_ids named)) (lent_keys keys)) }
{
    let mut held = SchemaIds::blank();
    for key in &keys.items[..keys.count] {
        let id = schema_id(Key(*key));
        if has_schema(named, id) {
            held = push_schema(held, id);
        }
    }
    held
}

// ---- the updates of a list

// An offer that is not well formed is 3, and one with a name that is taken is 31. The entry has the offer, under the id that a new schema gets. The first
// schema with its fields stands at `equal`; none does where that is the number of schemas.
pub fn add_schema(
    b: TableMetadataBuilder,
    keys: SchemaKeys,
    equal: usize,
    taken: bool,
    offered: OfferedSchema,
    u: TableUpdate,
) -> Decision
    requires keys_fit { KeysFit keys }
    requires laid_schema { LaidSchema offered.schema }
    requires u_value { is_tidy_update u ≡ true }
    requires kind_value { u.kind ≡ add_schema_kind }
    ensures { SchemaDecided b keys equal taken offered u result }
{
    if !offered.formed {
        return decided(UPDATE_NOT_FORMED, false, b, u);
    }
    if taken {
        return decided(NAME_CLASH, false, b, u);
    }
    let x = schema_addition(b, keys, equal, offered.schema);
    let c = x.builder;
    let id = x.schema_id;
    let mut part = u.schemas;
    let mut offer = part.added;
    offer.schema_id = id;
    part.added = offer;
    let mut e = u;
    e.schemas = part;
    Decision {
        number: x.number,
        logs: x.logs,
        grows: x.grows,
        builder: c,
        entry: e,
    }
}

// The schema that an addition puts into the table: as it is offered, under the id of the entry.
pub fn new_schema(offered: OfferedSchema, d: Decision) -> Schema
    ensures { result ≡ schema_under d.entry.schemas.added.schema_id offered.schema }
{
    let id = d.entry.schemas.added.schema_id;
    let mut s = offered.schema;
    s.schema_id = id;
    s
}

pub fn set_current_schema(b: TableMetadataBuilder, keys: SchemaKeys, u: TableUpdate) -> Decision
    requires keys_fit { KeysFit keys }
    requires u_value { is_tidy_update u ≡ true }
    requires kind_value { u.kind ≡ set_current_schema_kind }
    ensures { (terms : Terms) (st : State) → b ≡ laid_builder st → keys ≡ laid_keys st.metadata.schemas → Decides terms u st result }
{
    let mut part = u.schemas;
    let x = schema_choice(b, keys, part.chosen);
    let c = x.builder;
    let id = x.schema_id;
    part.chosen = id;
    let mut e = u;
    e.schemas = part;
    decided(x.number, x.logs, c, e)
}

// The entry has the ids that were held.
pub fn remove_schemas(b: TableMetadataBuilder, keys: SchemaKeys, u: TableUpdate) -> Decision
    requires keys_fit { KeysFit keys }
    requires u_value { is_tidy_update u ≡ true }
    requires u_value_2 { update_formed (read_kind u) ≡ true }
    requires kind_value { u.kind ≡ remove_schemas_kind }
    ensures { (terms : Terms) (st : State) → b ≡ laid_builder st → keys ≡ laid_keys st.metadata.schemas → Decides terms u st result }
{
    let mut part = u.schemas;
    let named = part.removed;
    let n = named.count;
    let f = b.fields;
    let current = f.current_schema_id;
    let removed = has_schema(named, current);
    let number = choose(removed, CURRENT_SCHEMA_REMOVED, ACCEPTED);
    let logged = held(keys, named);
    part.removed = logged;
    let mut e = u;
    e.schemas = part;
    decided(number, n > 0, b, e)
}
