// A change log written as a published list of updates into a lent buffer. Refused with 38 where such a list cannot carry it, then with 25 where the buffer is
// short; then nothing is written. The crate `log_rule` decides, in LogText.
#![tactic(auto)]

mod carried;
mod ids;
mod log;
mod spec;
mod update;

ghost use Rattle.std.specs.Prelude.{true, ◌≡◌};
ghost use Rattle.rules.specs.Kinds.{read_updates};
ghost use Rattle.log_rule.specs.Held.{log_fits};
ghost use Rattle.log_writer.specs.Answer.{put_answer, put_bytes, log_answer, log_bytes};

use crate::carried::is_carried;
use crate::log::put_log;
use file_writer::{Exported, write_text};
use records::update::UpdateList;

const NOT_CARRIED: u8 = 38;

// A log that can be written.
#[tactic(auto, unfolding(crate::specs::Answer::put_answer, crate::specs::Answer::put_bytes))]
fn write(updates: UpdateList, offers: &[u8], buffer: &mut [u8]) -> Exported
    ensures value { result ≡ put_answer updates offers.now buffer.old }
    ensures buffer_after { buffer.new ≡ put_bytes updates offers.now buffer.old }
{
    write_text(buffer, |bytes| put_log(bytes, updates, offers))
}

// The first bytes of the buffer are the text, and the rest stays as it was. The numbers of the updates have the bits of their types, whatever is answered: so
// a text that is written is read back (proofs/ReadBack).
pub fn write_log(updates: UpdateList, offers: &[u8], buffer: &mut [u8]) -> Exported
    ensures answer { result ≡ log_answer updates offers.now buffer.old }
    ensures bytes { buffer.new ≡ log_bytes updates offers.now buffer.old }
    ensures fits { log_fits (read_updates updates) ≡ true }
{
    if !is_carried(updates, offers) {
        return Exported {
            number: NOT_CARRIED,
            length: 0,
        };
    }
    write(updates, offers, buffer)
}
