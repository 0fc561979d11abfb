// A field of an offered partition spec, as its bytes and its id in the offer say it. Only what stands here knows what each byte is.
ghost use Rattle.std.specs.Prelude.{◌≡◌, true, pos, length};
ghost use Rattle.rules.specs.Words.{or_else};
ghost use Rattle.rules.specs.Capacities.{partition_bytes};
ghost use Rattle.rules.specs.Offers.{offered_partition, is_tidy_partition};
ghost use Rattle.rules.specs.Layout.{laid_partition_field, read_offered_id};

use crate::place::{is_name_at, is_number_at, name_at, number_at};
use records::counters::{Buckets, FieldId};
use records::partition::{OfferedId, PartitionField};

// Where the source's id stands, the transform, the number of buckets, and the name with its length first.
const SOURCE: usize = 0;

const TRANSFORM: usize = 4;

const BUCKETS: usize = 5;

const NAMED: usize = 9;

// Both numbers have at most 31 bits, the name has its bytes, and those past it are 0.
pub fn is_tidy_partition(bytes: &[u8]) -> bool
    requires { length bytes.now ≡ partition_bytes }
    ensures { result ≡ is_tidy_partition bytes.now }
{
    is_number_at(bytes, SOURCE) & is_number_at(bytes, BUCKETS) & is_name_at(bytes, NAMED)
}

// 0 for one that is left out.
fn number_of(x: OfferedId) -> FieldId
    ensures { result.0 ≡ or_else (read_offered_id x) (pos 0) }
{
    let id = x.id;
    if x.given {
        return id;
    }
    FieldId(0)
}

pub fn partition_of(bytes: &[u8], id: OfferedId) -> PartitionField
    requires bytes_len { length bytes.now ≡ partition_bytes }
    requires bytes_value { is_tidy_partition bytes.now ≡ true }
    ensures { result ≡ laid_partition_field (offered_partition bytes.now (read_offered_id id)) }
{
    let source = number_at(bytes, SOURCE) as i32;
    let n = number_at(bytes, BUCKETS) as i32;
    let field_id = number_of(id);
    let name = name_at(bytes, NAMED);
    PartitionField {
        source_id: FieldId(source),
        field_id,
        buckets: Buckets(n),
        transform: bytes[TRANSFORM],
        has_id: id.given,
        name,
    }
}
