// A field of a schema that is not held, in words.
use crate::path::{Path, Step};
use crate::told::{say_quoted, say_spot, say_step};
use plaintext::text::say;
use tokens::output::Output;

// The member for which it is not.
#[derive(Clone, Copy, PartialEq, Eq, Debug)]
pub enum Member {
    Required,
    Type,
}

// What the field is, by the first byte of the value at fault.
fn say_fault(output: &mut Output, text: &[u8], at: usize, member: Member) {
    match (member, text.get(at)) {
        (_, None) => {}
        (Member::Required, Some(b't')) => say(
            output,
            b" is required; only optional fields are held (",
        ),
        (Member::Required, _) => say(
            output,
            b" is neither required nor optional; only optional fields are held (",
        ),
        (Member::Type, Some(b'"')) => {
            say(output, b" is of type ");
            say_quoted(output, text, at);
            say(output, b"; only long and timestamp are held (");
        }
        (Member::Type, _) => say(
            output,
            b" is of a type that is no word; only long and timestamp are held (",
        ),
    }
}

// As `fields[0] ("file_no") is required; only optional fields are held (line 13, column 20)`: the path leads to the value at fault, and the step to the
// field.
pub fn say_field(
    output: &mut Output,
    text: &[u8],
    path: &Path,
    step: Option<Step>,
    at: usize,
    member: Member,
    named: Option<usize>,
) {
    say(output, b"fields");
    if let Some(step) = step {
        say_step(output, text, step);
    }
    if let Some(quote) = named {
        say(output, b" (\"");
        say_quoted(output, text, quote);
        say(output, b"\")");
    }
    say_fault(output, text, at, member);
    say_spot(output, text, path, at);
    say(output, b")");
}
