// A field of an offered schema, as its bytes say it. Only what stands here knows what each of them is.
ghost use Rattle.std.specs.Prelude.{◌≡◌, true, length};
ghost use Rattle.rules.specs.Capacities.{field_bytes};
ghost use Rattle.rules.specs.Offers.{offered_field, is_tidy_field};
ghost use Rattle.rules.specs.Layout.{laid_schema_field};

use crate::place::{is_name_at, is_number_at, name_at, number_at};
use records::counters::FieldId;
use records::schema::SchemaField;

// Where the id stands, the type, and the name with its length first.
const ID: usize = 0;

const TYPE: usize = 4;

const NAMED: usize = 5;

// The id has at most 31 bits, the name has its bytes, and those past it are 0.
pub fn is_tidy_field(bytes: &[u8]) -> bool
    requires { length bytes.now ≡ field_bytes }
    ensures { result ≡ is_tidy_field bytes.now }
{
    is_number_at(bytes, ID) & is_name_at(bytes, NAMED)
}

pub fn field_of(bytes: &[u8]) -> SchemaField
    requires bytes_len { length bytes.now ≡ field_bytes }
    requires bytes_value { is_tidy_field bytes.now ≡ true }
    ensures { result ≡ laid_schema_field (offered_field bytes.now) }
{
    let id = number_at(bytes, ID) as i32;
    let name = name_at(bytes, NAMED);
    SchemaField {
        id: FieldId(id),
        field_type: bytes[TYPE],
        name,
    }
}
