// Case 20: a list in parts. The case is read part by part, and each is fed as it comes.
use case_reader::text::read_slots;
use case_writer::update::put_updates;
use json_list::{Answer, Reader, end as end_of_list, feed, start};
use records::capacities::OFFERS;
use slot_bounds::lent;
use tokens::field::{read_count, read_up_to};
use tokens::input::Input;
use tokens::number::{put_count, put_u8};
use tokens::output::Output;

// The kind of a list among the cases.
pub const LIST: u64 = 20;

// The longest part.
const PART: u64 = 65536;

// No list is read on behind so many bytes: they are counted.
const LONGEST: usize = 1 << 62;

// The first so many bytes of the slots are one more part.
fn feed_part(reader: Reader, slots: &[u8], len: usize, offers: &mut [u8; OFFERS]) -> Reader {
    let n = lent(slots, len);
    if reader.before > LONGEST || slots.len() > LONGEST {
        return reader;
    }
    feed(reader, &slots[..n], offers)
}

fn read_part(reader: Reader, input: &mut Input, offers: &mut [u8; OFFERS]) -> Reader {
    let mut part = io::large_buffer();
    let len = read_up_to(input, PART) as usize;
    read_slots(input, &mut part, len);
    feed_part(reader, &part, len, offers)
}

fn read_parts(input: &mut Input, offers: &mut [u8; OFFERS]) -> Answer {
    let count = read_count(input);
    let mut reader = start(offers);
    for _ in 0..count {
        if !input.is_good() {
            break;
        }
        reader = read_part(reader, input, offers);
    }
    end_of_list(reader, offers)
}

// The number, the place, the updates; an added schema with its names.
fn put_read(output: &mut Output, answer: Answer, offers: &[u8; OFFERS]) {
    let slots: &[u8] = offers;
    put_u8(output, answer.number);
    put_count(output, answer.place);
    put_updates(output, answer.list, slots, true);
}

pub fn answer(input: &mut Input, output: &mut Output) {
    let mut offers = [0u8; OFFERS];
    let answer = read_parts(input, &mut offers);
    if input.is_good() {
        put_read(output, answer, &offers);
    }
}
