// What an update offers, read from the bytes that are lent beside the list, as the crate `rules` says it in Offers. Any offer is answered, whatever the bytes.
#![tactic(auto)]

pub mod field;
pub mod partition;
pub mod place;
pub mod spec_fields;

ghost use Rattle.std.specs.Prelude.{◌≡◌, ◌+◌, ◌*◌, ◌≤◌, true, false, ◌&&◌, leb, length};
ghost use Rattle.records.specs.Blanks.{no_schema, no_partition_spec};
ghost use Rattle.rules.specs.Words.{all};
ghost use Rattle.rules.specs.Capacities.{schema_field_room, field_bytes};
ghost use Rattle.rules.specs.Register.{Terms};
ghost use Rattle.rules.specs.Updates.{offers_formed};
ghost use Rattle.rules.specs.Kinds.{is_tidy_update, read_update};
ghost use Rattle.rules.specs.Offers.{is_tidy_field, offered_fields, offered_schema};
ghost use Rattle.rules.specs.Layout.{read_schema_offer, laid_schema, read_spec_offer};
ghost use Rattle.offers.specs.Offered.{Offered, SpecOffered};

use crate::field::{field_of, is_tidy_field};
use crate::place::are_within;
use crate::spec_fields::{are_there, are_tidy, spec_of};
use formed::record::{offered_spec_formed, schema_formed};
use records::capacities::{FIELD_BYTES, SCHEMA_FIELDS};
use records::partition::{PartitionSpec, SpecOffer};
use records::schema::{Schema, SchemaOffer};
use records::update::{ADD_PARTITION_SPEC, ADD_SCHEMA, TableUpdate};

// Whether an offer is well formed, and the schema that it offers.
// Kept: `Offered` and `SpecOffered` (specs/), which `schema` and `spec` ensure, speak of the flag and of the blank behind it.
#[derive(Clone, Copy)]
pub struct OfferedSchema {
    pub formed: bool,
    pub schema: Schema,
}

// The same of a partition spec.
#[derive(Clone, Copy)]
pub struct OfferedSpec {
    pub formed: bool,
    pub spec: PartitionSpec,
}

// No more fields than a schema has room for, and all their bytes are among so many.
fn is_there(o: SchemaOffer, len: usize) -> bool
    ensures { result ≡ (leb o.count schema_field_room && leb (o.at + o.count * field_bytes) len) }
{
    o.count <= SCHEMA_FIELDS && are_within(o.at, o.count * FIELD_BYTES, len)
}

// The bytes of each field say one.
fn fields_tidy(o: SchemaOffer, bytes: &[u8]) -> bool
    requires { o.at + o.count * field_bytes ≤ length bytes.now }
    ensures { result ≡ all is_tidy_field (offered_fields bytes.now (read_schema_offer o)) }
{
    for i in 0..o.count {
        let from = o.at + i * FIELD_BYTES;
        if !is_tidy_field(&bytes[from..from + FIELD_BYTES]) {
            return false;
        }
    }
    true
}

// The schema of an offer that is there and whose bytes say its fields.
fn schema_of(o: SchemaOffer, bytes: &[u8]) -> Schema
    requires count_le_schema_field_room { o.count ≤ schema_field_room }
    requires field_bytes_in_bounds { o.at + o.count * field_bytes ≤ length bytes.now }
    requires o_value { all is_tidy_field (offered_fields bytes.now (read_schema_offer o)) ≡ true }
    ensures { result ≡ laid_schema (offered_schema bytes.now (read_schema_offer o)) }
{
    let mut schema = Schema::blank();
    for i in 0..o.count {
        let from = o.at + i * FIELD_BYTES;
        schema.items[i] = field_of(&bytes[from..from + FIELD_BYTES]);
    }
    schema.schema_id = o.schema_id;
    schema.count = o.count;
    schema
}

// What is answered of an offer that is not well formed.
fn not_formed() -> OfferedSchema
    ensures { (result.formed ≡ false) × (result.schema ≡ no_schema) }
{
    let s = Schema::blank();
    OfferedSchema {
        formed: false,
        schema: s,
    }
}

// The schema that an offer offers, and whether it is well formed; where it is not, the schema is blank.
pub fn schema(o: SchemaOffer, bytes: &[u8]) -> OfferedSchema
    ensures { Offered bytes.now (read_schema_offer o) result }
{
    if !is_there(o, bytes.len()) {
        return not_formed();
    }
    if !fields_tidy(o, bytes) {
        return not_formed();
    }
    let s = schema_of(o, bytes);
    if !schema_formed(s) {
        return not_formed();
    }
    OfferedSchema {
        formed: true,
        schema: s,
    }
}

// What is answered of an offer of a spec that is not well formed.
fn spec_not_formed() -> OfferedSpec
    ensures { (result.formed ≡ false) × (result.spec ≡ no_partition_spec) }
{
    let s = PartitionSpec::blank();
    OfferedSpec {
        formed: false,
        spec: s,
    }
}

// The spec that an offer offers, and whether it is well formed; where it is not, the spec is blank.
pub fn spec(o: SpecOffer, bytes: &[u8]) -> OfferedSpec
    ensures { SpecOffered bytes.now (read_spec_offer o) result }
{
    if !are_there(o, bytes.len()) {
        return spec_not_formed();
    }
    if !are_tidy(o, bytes) {
        return spec_not_formed();
    }
    let s = spec_of(o, bytes);
    if !offered_spec_formed(s) {
        return spec_not_formed();
    }
    OfferedSpec {
        formed: true,
        spec: s,
    }
}

// What an update offers is well formed; so is nothing.
pub fn is_formed(u: TableUpdate, bytes: &[u8]) -> bool
    requires { is_tidy_update u ≡ true }
    ensures { (terms : Terms) → terms.offers ≡ bytes.now → result ≡ offers_formed terms (read_update u) }
{
    let kind = u.kind;
    if kind == ADD_SCHEMA {
        let offered = schema(u.schemas.added, bytes);
        return offered.formed;
    }
    if kind == ADD_PARTITION_SPEC {
        let offered = spec(u.partition_specs.added, bytes);
        return offered.formed;
    }
    true
}
