// The fields of an offered partition spec among the bytes, one after the other: as many as the offer counts.
ghost use Rattle.std.specs.Prelude.{◌≡◌, ◌+◌, ◌*◌, ◌≤◌, true, ◌&&◌, leb, length, drop};
ghost use Rattle.rules.specs.Words.{all};
ghost use Rattle.rules.specs.Capacities.{partition_field_room, partition_bytes};
ghost use Rattle.rules.specs.Offers.{is_tidy_partition, partitions_of, offered_spec};
ghost use Rattle.rules.specs.Layout.{read_spec_offer, laid_partition_spec};

use crate::partition::{is_tidy_partition, partition_of};
use crate::place::are_within;
use records::capacities::{PARTITION_BYTES, PARTITION_FIELDS};
use records::partition::{PartitionSpec, SpecOffer};

// No more fields than a spec has room for, and all their bytes are among so many.
pub fn are_there(o: SpecOffer, len: usize) -> bool
    ensures { result ≡ (leb o.count partition_field_room && leb (o.at + o.count * partition_bytes) len) }
{
    o.count <= PARTITION_FIELDS && are_within(o.at, o.count * PARTITION_BYTES, len)
}

// The bytes of each field say one.
pub fn are_tidy(o: SpecOffer, bytes: &[u8]) -> bool
    requires { o.at + o.count * partition_bytes ≤ length bytes.now }
    ensures { result ≡ all is_tidy_partition (partitions_of o.count (drop o.at bytes.now)) }
{
    for i in 0..o.count {
        let from = o.at + i * PARTITION_BYTES;
        if !is_tidy_partition(&bytes[from..from + PARTITION_BYTES]) {
            return false;
        }
    }
    true
}

// The spec of an offer that is there and whose bytes say its fields.
pub fn spec_of(o: SpecOffer, bytes: &[u8]) -> PartitionSpec
    requires count_le_partition_field_room { o.count ≤ partition_field_room }
    requires partition_bytes_in_bounds { o.at + o.count * partition_bytes ≤ length bytes.now }
    requires bytes_value { all is_tidy_partition (partitions_of o.count (drop o.at bytes.now)) ≡ true }
    ensures { result ≡ laid_partition_spec (offered_spec bytes.now (read_spec_offer o)) }
{
    let mut spec = PartitionSpec::blank();
    for (i, id) in o.ids[..o.count].iter().enumerate() {
        let from = o.at + i * PARTITION_BYTES;
        spec.items[i] = partition_of(&bytes[from..from + PARTITION_BYTES], *id);
    }
    spec.spec_id = o.spec_id;
    spec.count = o.count;
    spec
}
