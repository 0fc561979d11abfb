// Why a list of updates as JSON is refused, for people: every defect by its line and column, the path of names and positions that leads there, and a
// sentence; the least first, which is the answer, and the others behind it in order.
// Nothing is refused here, and nothing is judged: the defects are those that the judge of the crate `json_members` notes, lexeme by lexeme.
#![tactic(auto)]

pub mod field;
pub mod found;
mod judged;
pub mod path;
mod reason;
pub mod told;
mod words;
