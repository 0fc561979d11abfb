// Metadata exported as a published JSON file into a lent buffer. Refused with 1, then 38 where a file cannot show it, then 25 where the buffer is short;
// then nothing is written. Document 02 decides, requests (vii) and (xi), as the crate `file_rule` writes it in Export.
#![tactic(auto)]

ghost use Rattle.std.specs.Prelude.{true, ◌≡◌};
ghost use Rattle.rules.specs.Layout.{read_metadata};
ghost use Rattle.file_rule.specs.Fits.{metadata_fits};
ghost use Rattle.file_export.specs.Answer.{export_answer, export_bytes};

use file_shown::is_shown;
use file_writer::{Exported, write};
use formed::metadata::is_formed;
use records::metadata::TableMetadata;
use records::replies::START_NOT_FORMED;

const NOT_SHOWN: u8 = 38;

// The first bytes of the buffer are the file, and the rest stays as it was. The numbers of the metadata have the bits of their types, whatever is answered: so
// a file that is written is read back (proofs/ReadBack).
pub fn export(metadata: TableMetadata, buffer: &mut [u8]) -> Exported
    ensures answer { result ≡ export_answer metadata buffer.old }
    ensures bytes { buffer.new ≡ export_bytes metadata buffer.old }
    ensures fits { metadata_fits (read_metadata metadata) ≡ true }
{
    if !is_formed(metadata) {
        return Exported {
            number: START_NOT_FORMED,
            length: 0,
        };
    }
    if !is_shown(metadata) {
        return Exported {
            number: NOT_SHOWN,
            length: 0,
        };
    }
    write(metadata, buffer)
}
