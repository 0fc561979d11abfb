// What the bytes of a field say from a place on: a number, a name. The fields of schemas and of partition specs say them alike.
ghost use Rattle.std.specs.Prelude.{◌≡◌, ◌+◌, ◌≤◌, ◌<◌, true, ◌&&◌, leb, length};
ghost use Rattle.rules.specs.Capacities.{name_room};
ghost use Rattle.rules.specs.Offers.{number_at, is_number_at, name_at, fits_at, rest_zero_at};
ghost use Rattle.rules.specs.Layout.{laid_name};

use formed::blanks::zeros_from;
use records::capacities::NAME;
use records::text::Name;

// The largest number of 32 bits with a sign.
const LARGEST: u64 = i32::MAX as u64;

fn wide(x: u8) -> u64
    ensures { (result ≡ x) × (result < 256) }
{
    x as u64
}

fn count(x: u8) -> usize
    ensures { (result ≡ x) × (result < 256) }
{
    x as usize
}

// So many bytes from a place on are among so many. The sum is not made: it could wrap.
pub fn are_within(at: usize, n: usize, len: usize) -> bool
    ensures { result ≡ leb (at + n) len }
{
    if at > len {
        return false;
    }
    n <= len - at
}

// Four bytes, the lowest first.
pub fn number_at(bytes: &[u8], at: usize) -> u64
    requires { at + 4 ≤ length bytes.now }
    ensures { result ≡ number_at at bytes.now }
{
    wide(bytes[at])
        + 256 * (wide(bytes[at + 1]) + 256 * (wide(bytes[at + 2]) + 256 * wide(bytes[at + 3])))
}

// The number has at most 31 bits.
pub fn is_number_at(bytes: &[u8], at: usize) -> bool
    requires { at + 4 ≤ length bytes.now }
    ensures { result ≡ is_number_at at bytes.now }
{
    number_at(bytes, at) <= LARGEST
}

// The name has its bytes, and those past it are 0.
pub fn is_name_at(bytes: &[u8], at: usize) -> bool
    requires { length bytes.now ≡ at + 1 + name_room }
    ensures { result ≡ (fits_at at bytes.now && rest_zero_at at bytes.now) }
{
    let n = count(bytes[at]);
    if n > NAME {
        return false;
    }
    zeros_from(bytes, at + 1 + n)
}

// All bytes are copied: those past the name are 0 in the record too.
pub fn name_at(bytes: &[u8], at: usize) -> Name
    requires bytes_len { length bytes.now ≡ at + 1 + name_room }
    requires bytes_value { (fits_at at bytes.now && rest_zero_at at bytes.now) ≡ true }
    ensures { result ≡ laid_name (name_at at bytes.now) }
{
    let mut name = Name::blank();
    name.bytes.copy_from_slice(&bytes[at + 1..at + 1 + NAME]);
    name.len = count(bytes[at]);
    name
}
