// The answer: accepted, with this session's metadata, changes and expired metadata files; or refused, and why.
use crate::conditions::{Condition, say_condition, say_with_conditions};
use faults::{fault, start_fault};
use plaintext::metadata::say_files;
use plaintext::reply::say_refusal;
use plaintext::text::say;
use plaintext::update::say_updates;
use records::metadata::TableMetadata;
use records::replies::START_NOT_FORMED;
use records::run::{Answer, RunTerms};
use tokens::output::Output;

// The fault of a start for which a run is refused with this number.
pub fn fault_of(number: u8, metadata: TableMetadata, terms: RunTerms) -> u8 {
    if number == START_NOT_FORMED {
        return start_fault(metadata, terms);
    }
    fault::NONE
}

// A refused run gives back the metadata that it started from.
// The offers are those of the run: the change log names them.
// Each function that gets the answer copies it, so it is not handed on: less stack is needed.
pub fn say_answer(output: &mut Output, terms: RunTerms, answer: Answer, offers: &[u8]) {
    if answer.number == 0 {
        say(output, b"accepted\nthis session's metadata\n");
        say_with_conditions(output, answer.metadata);
        say(output, b"what changed\n");
        say_updates(output, b"change log", answer.changes, offers);
        let both = histories::removes_and_adds(answer.changes);
        say_condition(output, Condition::RemovesAndAdds, both);
        say_files(output, b"expired metadata files", answer.expired);
    } else {
        let found = fault_of(answer.number, answer.metadata, terms);
        say_refusal(output, answer.number, answer.place, found);
        say(output, b"\nthe metadata stays as it was\n");
    }
}
