// Bytes: a length, then that many numbers from 0 to 255. The slots there are hold the first of them, and the length is kept as it came.
use slot_bounds::with_slots;
use tokens::number::{put_count, put_u8};
use tokens::output::Output;

pub fn put_slots(output: &mut Output, slots: &[u8], len: usize) {
    let n = with_slots(len, slots.len());
    for &byte in &slots[..n] {
        put_u8(output, byte);
    }
}

pub fn put_bytes(output: &mut Output, slots: &[u8], len: usize) {
    put_count(output, len);
    put_slots(output, slots, len);
}
