// Why something is refused.
use json_told::field::Member;

#[derive(Clone, Copy, PartialEq, Eq, Debug)]
pub enum Reason {
    Broken,
    Ended,
    Unknown,
    Repeated,
    // The first member that is missing.
    Missing(usize),
    HalfARange,
    // What is wanted.
    Otherwise(usize),
    // Of a schema, for a member of one of its fields, and where the name of that stands, if it was read.
    OfField(Member, Option<usize>),
    // How much room there is: of a text, and of a list or of refs.
    OverText(usize),
    OverList(usize),
    Deep,
    // Not seen in going through the text: the number.
    Unseen(usize),
}
