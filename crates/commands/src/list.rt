// The list of updates that `run` is given as JSON, in the place of a run's own.
ghost use Rattle.slot_bounds.specs.Counted.{Counted};

use crate::turn::Turn;
use command::read_part;
use json_list::Answer;
use records::capacities::OFFERS;
use slot_bounds::lent;
use std::rt::HostRuntime;
use tokens::output::Output;
use tokens::source::Source;

// No byte of a name.
const NO_MARK: u8 = 0;

// Standard input, or a file; nothing where there is none.
fn open(rt: HostRuntime, name: &[u8]) -> Source {
    match name {
        b"-" => Source::standard(rt),
        _ => Source::open(rt, name),
    }
}

// The name by which the list is told: that of the file, of so many bytes, or what stands for no file.
fn told_as(is_input: bool, name: &mut [u8], len: usize) -> usize
    ensures { Counted result name.new }
{
    if is_input {
        return read_part(b"standard input", NO_MARK, NO_MARK, 0, name);
    }
    lent(name, len)
}

// The list, or what is wrong with it: that is said, and nothing is to be run then.
pub fn read_list(
    rt: HostRuntime,
    turn: Turn,
    offers: &mut [u8; OFFERS],
    output: &mut Output,
) -> Answer {
    let mut name = io::buffer();
    let len = turn.read_word(rt, turn.list, &mut name);
    let mut source = open(rt, &name[..len]);
    let said = told_as(source.is_standard(), &mut name, len);
    update_lists::file::read(&mut source, &name[..said], offers, output)
}
