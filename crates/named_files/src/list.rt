// A list of updates, as a change log is, by the name of its file.
use case_reader::update::read_updates;
use file_words::file::is_json;
use plaintext::fault::{say_fault, say_unopened};
use records::capacities::OFFERS;
use records::update::UpdateList;
use std::rt::HostRuntime;
use tokens::input::Input;
use tokens::output::Output;
use tokens::source::Source;
use tokens::token::read_end;

// The number is 0 where there is a list.
#[derive(Clone, Copy)]
pub struct Listed {
    pub number: u8,
    pub list: UpdateList,
}

// Kept: the number of what could not be read, which no refusal has: an Option of a list would be copied once more where it is taken out.
const NO_LIST: u8 = 255;

fn read_json(
    mut source: Source,
    name: &[u8],
    offers: &mut [u8; OFFERS],
    output: &mut Output,
) -> Listed {
    let answer = update_lists::file::read(&mut source, name, offers, output);
    Listed {
        number: answer.number,
        list: answer.list,
    }
}

// A count and the updates, and nothing behind them.
fn read_case(
    source: Source,
    name: &[u8],
    offers: &mut [u8],
    input: &mut Input,
    output: &mut Output,
) -> Listed {
    input.turn_to(source);
    let list = read_updates(input, offers);
    read_end(input);
    let mut number = 0;
    if !input.is_good() {
        say_fault(output, name, b"", input);
        number = NO_LIST;
    }
    input.close();
    Listed { number, list }
}

// The list, or what is wrong with it: that is said. What its updates offer is put among the offers.
pub fn read(
    rt: HostRuntime,
    name: &[u8],
    offers: &mut [u8; OFFERS],
    input: &mut Input,
    output: &mut Output,
) -> Listed {
    let source = Source::open(rt, name);
    if !source.is_open() {
        say_unopened(output, name);
        return Listed {
            number: NO_LIST,
            list: UpdateList::blank(),
        };
    }
    if is_json(rt, name) {
        return read_json(source, name, offers, output);
    }
    read_case(source, name, offers, input, output)
}
