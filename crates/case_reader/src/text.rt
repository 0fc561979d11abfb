// Bytes: a length, then that many numbers from 0 to 255. The slots there are hold the first of them, and the length is kept as it came.
use records::capacities::{NAME, TEXT};
use records::text::{Name, Text};
use slot_bounds::store_byte;
use tokens::field::{read_count, read_u8};
use tokens::input::Input;

pub fn read_slots(input: &mut Input, slots: &mut [u8], len: usize) {
    for i in 0..len {
        if !input.is_good() {
            break;
        }
        let byte = read_u8(input);
        store_byte(slots, i, byte);
    }
}

fn read_bytes(input: &mut Input, slots: &mut [u8]) -> usize {
    let len = read_count(input);
    read_slots(input, slots, len);
    len
}

pub fn read_uuid(input: &mut Input) -> [u8; 16] {
    let mut uuid = [0u8; 16];
    read_slots(input, &mut uuid, 16);
    uuid
}

pub fn read_name(input: &mut Input) -> Name {
    let mut bytes = [0u8; NAME];
    let len = read_bytes(input, &mut bytes);
    Name { bytes, len }
}

// A location, a file's name or a path.
pub fn read_text(input: &mut Input) -> Text {
    let mut bytes = [0u8; TEXT];
    let len = read_bytes(input, &mut bytes);
    Text { bytes, len }
}
