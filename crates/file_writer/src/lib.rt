// Metadata written as a published JSON file into a lent buffer. Refused with 25 where the buffer is short; then nothing is written.
// Document 02 decides, request (vii), as the crate `file_rule` writes it in Files and Export.
#![tactic(auto)]

ghost use Rattle.std.specs.Prelude.{◌≡◌, List, ℕ};
ghost use Rattle.file_text.specs.Puts.{Puts};
ghost use Rattle.file_writer.specs.Answer.{written_of, bytes_of, write_answer, write_bytes};

use file_tables::file::put_file;
use records::metadata::TableMetadata;
use records::replies::{ACCEPTED, BUFFER_TOO_SHORT};

// Kept: a number with a length beside it is what `file_export::export` and `log_writer::write_log` answer.
// The number is 0, or that of the refusal; the length is the file's, 0 on a refusal.
#[derive(Clone, Copy)]
pub struct Exported {
    pub number: u8,
    pub length: usize,
}

// What the closure puts, if there is room for it: it first puts everything into a buffer that does not matter, to learn how long the text is, up to 2^64 - 1. The first
// bytes of the buffer are then the text, and the rest stays as it was.
pub fn write_text<F: Fn(&mut [u8]) -> usize>(buffer: &mut [u8], put: F) -> Exported
    ghost text: { List ℕ }
    requires callable { F.IsAlwaysCallable put }
    requires puts { (b : _) (r : _) (b' : _) → F.post put b r b' → Puts b.now 0 text r b'.now }
    ensures value { result ≡ written_of text buffer.old }
    ensures buffer_after { buffer.new ≡ bytes_of text buffer.old }
{
    let mut none = [0u8; 1];
    let long = put(&mut none);
    if buffer.len() < long {
        return Exported {
            number: BUFFER_TOO_SHORT,
            length: 0,
        };
    }
    let length = put(buffer);
    Exported {
        number: ACCEPTED,
        length,
    }
}

// The first bytes of the buffer are the file, and the rest stays as it was.
#[tactic(auto, unfolding(crate::specs::Answer::write_answer, crate::specs::Answer::write_bytes))]
pub fn write(metadata: TableMetadata, buffer: &mut [u8]) -> Exported
    ensures value { result ≡ write_answer metadata buffer.old }
    ensures buffer_after { buffer.new ≡ write_bytes metadata buffer.old }
{
    write_text(buffer, |bytes| put_file(bytes, metadata))
}
