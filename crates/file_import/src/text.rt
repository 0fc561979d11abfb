// The whole text, by the tables of a version: the least refusal, and what the cells hold of it. Behind the value nothing may stand.
ghost use Rattle.file_import.specs.Reads.{TextRead};

use file_walk::cells::Cells;
use file_walk::reader::value;
use file_walk::seat::{Seat, refuse};
use json_lex::text::KEPT;
use json_tokens::{END, next};

// What is wanted of the text: the file.
const FILE: usize = 100;

const NOT_JSON: usize = 27;

const READ: usize = 0;

pub fn read_text(bytes: &[u8], cells: &mut Cells, version: usize) -> Seat
    ensures { TextRead bytes.now version cells.old result cells.new }
{
    let mut kept = [0u8; KEPT];
    let start = Seat {
        from: 0,
        number: 0,
        place: 0,
        state: READ,
        count: 0,
        spot: 0,
    };
    let seat = value(bytes, &mut kept, cells, version, FILE, 0, 0, 0, start);
    if seat.state != READ {
        return seat;
    }
    let behind = next(bytes, seat.from, &mut kept);
    if behind.state == END {
        return seat;
    }
    refuse(NOT_JSON, behind.first, seat)
}
