// Metadata imported from a published JSON file. The file is gone through as far as its version, and then as a whole, by the tables of that version. Refused
// with 27, 28, 29 or 30 at the place of the first defect, then with 1 where the metadata is not well formed. Document 02 decides, request (vii), as the crate
// `file_rule` writes it in Import.
#![tactic(auto)]

ghost use Rattle.std.specs.Prelude.{◌≡◌, ◌%◌, replicate};
ghost use Rattle.file_import.specs.Answer.{import_answer, refused_with};

use crate::text::read_text;
use crate::version::version_of;
use file_records::metadata::metadata_of;
use file_walk::cells::{CELLS, Cells};
use formed::metadata::is_formed;
use records::metadata::TableMetadata;
use records::replies::{ACCEPTED, START_NOT_FORMED};

pub mod text;
pub mod version;

// Number and place of the answer; how many members at the top were skipped, and the metadata. Both are blank where the file is refused.
#[derive(Clone, Copy)]
pub struct Imported {
    pub number: u8,
    pub place: usize,
    pub skipped: usize,
    pub metadata: TableMetadata,
}

fn refused(number: u8, place: usize) -> Imported
    ensures { result ≡ refused_with number place }
{
    let metadata = TableMetadata::blank();
    Imported {
        number,
        place,
        skipped: 0,
        metadata,
    }
}

// The number of a refusal is a byte.
fn reply_of(number: usize) -> u8
    ensures { result ≡ number % 256 }
{
    (number % 256) as u8
}

// Nothing is held yet.
fn no_cells() -> Cells
    ensures { result ≡ replicate 9047 0 }
{
    [0u64; CELLS]
}

pub fn import(bytes: &[u8]) -> Imported
    ensures { result ≡ import_answer bytes.now }
{
    let mut passing = no_cells();
    let version = version_of(bytes, &mut passing);
    let mut cells = no_cells();
    let seat = read_text(bytes, &mut cells, version);
    if seat.number != 0 {
        return refused(reply_of(seat.number), seat.place);
    }
    let metadata = metadata_of(version, bytes, &cells);
    if !is_formed(metadata) {
        return refused(START_NOT_FORMED, 0);
    }
    Imported {
        number: ACCEPTED,
        place: 0,
        skipped: seat.count,
        metadata,
    }
}
