// The slots of a table or a text. What is counted beyond them is neither stored nor written.
#![tactic(auto)]

ghost use Rattle.std.specs.Prelude.{◌≡◌, ◌≤◌, set};
ghost use Rattle.slot_bounds.specs.Counted.{Counted};

// How many of so many have a slot.
pub fn with_slots(count: usize, slots: usize) -> usize
    ensures { (result ≤ count) × (result ≤ slots) }
{
    count.min(slots)
}

// How many bytes of a text can be lent, of which so many count.
pub fn lent(text: &[u8], len: usize) -> usize
    ensures { Counted result text.now }
{
    with_slots(len, text.len())
}

// A value to its slot; one past the end is not kept.
fn store<T: Copy + Drop>(slots: &mut [T], at: usize, value: T)
    ensures { slots.new ≡ set slots.old at value }
{
    if at < slots.len() {
        slots[at] = value;
    }
}

pub fn store_byte(slots: &mut [u8], at: usize, byte: u8)
    ensures { slots.new ≡ set slots.old at byte }
{
    store(slots, at, byte);
}

pub fn store_id(slots: &mut [i64], at: usize, id: i64)
    ensures { slots.new ≡ set slots.old at id }
{
    store(slots, at, id);
}
