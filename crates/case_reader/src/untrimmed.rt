// A location that is to be trimmed, of any length. What is kept of it is trimmed as the whole is (the crate `kept_text`).
use kept_text::location::length_with;
use slot_bounds::store_byte;
use tokens::field::{read_count, read_u8};
use tokens::input::Input;

// The first bytes go to the slots. A length within the slots is still to be trimmed, one beyond them is trimmed.
pub fn read_untrimmed(input: &mut Input, slots: &mut [u8]) -> usize {
    let count = read_count(input);
    let mut len: usize = 0;
    for i in 0..count {
        if !input.is_good() {
            break;
        }
        let byte = read_u8(input);
        store_byte(slots, i, byte);
        len = length_with(slots.len(), len, i, byte);
    }
    len
}
