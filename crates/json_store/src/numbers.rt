// Numbers in slots: a magnitude, and so far behind it 1 where the number is below 0.
ghost use Rattle.std.specs.Prelude.{◌≡◌};
ghost use Rattle.json_store.specs.Numbers.{put_number, magnitude_at, negative_at, signed_of, number_at, narrowed as narrowed_of, narrow_at, low_at, byte_at, count_at, copied};

// There is one for each spot; behind those stand the number of a bucket and the elements of lists.
pub const BUCKETS: usize = 63;

pub const SNAPSHOT_IDS_AT: usize = 64;

pub const SCHEMA_IDS_AT: usize = 80;

pub const SPEC_IDS_AT: usize = 96;

// Three of each sort field.
pub const SORTS_AT: usize = 112;

// Of each partition field its id, and 1 where it is given.
pub const PARTITION_IDS_AT: usize = 136;

pub const GIVEN_AT: usize = 144;

const SIGNS_AT: usize = 152;

pub const NUMBERS: usize = 304;

pub type Numbers = [u64; NUMBERS];

// A number of 64 bits, and one of 32.
#[derive(Clone, Copy)]
pub struct Whole(pub i64);

#[derive(Clone, Copy)]
pub struct Narrow(pub i32);

#[tactic(auto, unfolding(crate::specs::Numbers::put_number))]
pub fn put(numbers: &mut Numbers, at: usize, negative: bool, magnitude: u64)
    ensures { numbers.new ≡ put_number at negative magnitude numbers.old }
{
    if at < SIGNS_AT {
        numbers[at] = magnitude;
        numbers[SIGNS_AT + at] = negative as u64;
    }
}

#[tactic(auto, unfolding(crate::specs::Numbers::magnitude_at))]
pub fn magnitude_at(numbers: &Numbers, at: usize) -> u64
    ensures { result ≡ magnitude_at numbers.now at }
{
    if at < SIGNS_AT {
        return numbers[at];
    }
    0
}

#[tactic(auto, unfolding(crate::specs::Numbers::negative_at))]
pub fn is_negative_at(numbers: &Numbers, at: usize) -> bool
    ensures { result ≡ negative_at numbers.now at }
{
    if at < SIGNS_AT {
        return numbers[SIGNS_AT + at] == 1;
    }
    false
}

// A magnitude with its sign; 0 where it does not fit. What lies below 0 is counted from -1, as there is no magnitude of the lowest number.
#[tactic(auto, unfolding(crate::specs::Numbers::signed_of))]
pub fn signed(negative: bool, magnitude: u64) -> Whole
    ensures { result.0 ≡ signed_of negative magnitude }
{
    if negative {
        if magnitude == 0 {
            return Whole(0);
        }
        if magnitude > 9223372036854775808 {
            return Whole(0);
        }
        let less = (magnitude - 1) as i64;
        return Whole(-1 - less);
    }
    if magnitude > 9223372036854775807 {
        return Whole(0);
    }
    Whole(magnitude as i64)
}

#[tactic(auto, unfolding(crate::specs::Numbers::number_at))]
pub fn number_at(numbers: &Numbers, at: usize) -> Whole
    ensures { result.0 ≡ number_at numbers.now at }
{
    signed(is_negative_at(numbers, at), magnitude_at(numbers, at))
}

// Of 32 bits; 0 where it does not fit.
// Kept: tried, `i32::try_from(whole.0).unwrap_or(0)`: that its bounds are those of `narrowed` (specs/Numbers) was left to show.
pub fn narrowed(whole: Whole) -> Narrow
    ensures { result.0 ≡ narrowed_of whole.0 }
{
    let n = whole.0;
    if n < -2147483648 {
        return Narrow(0);
    }
    if n > 2147483647 {
        return Narrow(0);
    }
    Narrow(n as i32)
}

pub fn narrow_at(numbers: &Numbers, at: usize) -> Narrow
    ensures { result.0 ≡ narrow_at numbers.now at }
{
    narrowed(number_at(numbers, at))
}

// The lowest 32 bits; one below 0 is told by what it lacks to 2^32.
#[tactic(auto, unfolding(crate::specs::Numbers::low_bits))]
pub fn low_at(numbers: &Numbers, at: usize) -> u64
    ensures { result ≡ low_at numbers.now at }
{
    let magnitude = magnitude_at(numbers, at) % 4294967296;
    if is_negative_at(numbers, at) {
        return (4294967296 - magnitude) % 4294967296;
    }
    magnitude
}

// A number that has a byte.
pub fn byte_at(numbers: &Numbers, at: usize) -> u8
    ensures { result ≡ byte_at numbers.now at }
{
    (magnitude_at(numbers, at) % 256) as u8
}

// How many elements a list has, at most as many as there is room for.
#[tactic(auto, unfolding(crate::specs::Numbers::count_at))]
pub fn count_at(numbers: &Numbers, list: usize, room: usize) -> usize
    ensures { result ≡ count_at room numbers.now list }
{
    let count = magnitude_at(numbers, list) as usize;
    if count <= room {
        return count;
    }
    room
}

// One slot to another.
pub fn copy(numbers: &mut Numbers, from: usize, to: usize)
    ensures { numbers.new ≡ copied from to numbers.old }
{
    let magnitude = magnitude_at(numbers, from);
    let negative = is_negative_at(numbers, from);
    put(numbers, to, negative, magnitude);
}
