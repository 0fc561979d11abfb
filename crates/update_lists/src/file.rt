// A list that stands in a file or comes from standard input. It is read in parts, however long it is; its beginning is held, so that what is wrong with it
// can be told.
use json_list::{Answer, Reader, end as end_of_list, feed, start};
use json_told::told::say_bad_list;
use plaintext::fault::say_unopened;
use plaintext::text::say;
use records::capacities::OFFERS;
use slot_bounds::{lent, with_slots};
use tokens::output::Output;
use tokens::source::{Source, Unread};

// How many bytes are held, and the room for them and for a part behind them.
const HELD: usize = 131072;

const ROOM: usize = HELD + 16384;

// No list is read on behind so many bytes.
const LONGEST: usize = 1 << 62;

// Kept: the number of a list that could not be read, which no refusal has: an Option of an answer would be copied once more, with its list, where it is
// taken out.
const NO_LIST: u8 = 255;

// Part after part, up to an empty one at the end of the file. They are counted since nothing says that a file ends.
fn read_parts(
    source: &mut Source,
    text: &mut [u8],
    reader: &mut Reader,
    offers: &mut [u8; OFFERS],
) -> Result<(), Unread> {
    for _ in 0..u64::MAX {
        let before = reader.before;
        let from = with_slots(with_slots(before, HELD), text.len());
        let part = &mut text[from..];
        let count = source.read(part)?;
        if count == 0 || before > LONGEST {
            break;
        }
        *reader = feed(*reader, &part[..count], offers);
    }
    Ok(())
}

// A refused list is told by its beginning: where it is refused, and why.
fn say_refused(output: &mut Output, name: &[u8], text: &[u8], length: usize, answer: &Answer) {
    let held = lent(text, with_slots(length, HELD));
    let is_whole = length <= HELD;
    let number = answer.number as usize;
    say_bad_list(output, name, &text[..held], is_whole, number, answer.place);
    say(output, b"the list is refused, and nothing is run\n");
}

// The list, or its refusal, which is told.
pub fn read(
    source: &mut Source,
    name: &[u8],
    offers: &mut [u8; OFFERS],
    output: &mut Output,
) -> Answer {
    let mut text = [0u8; ROOM];
    let mut reader = start(offers);
    let outcome = read_parts(source, &mut text, &mut reader, offers);
    let length = reader.before;
    let mut answer = end_of_list(reader, offers);
    if outcome.is_err() {
        answer.number = NO_LIST;
        say_unopened(output, name);
    } else if answer.number > 0 {
        say_refused(output, name, &text, length, &answer);
    }
    answer
}
