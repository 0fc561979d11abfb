// Why a metadata file is refused, for people: every defect by its line and column, the path of names and positions that leads there, and a sentence; the
// first of them is the answer, and the others stand behind it in order.
// Nothing is decided here: the answer is that of the crate `file_import`. The text is gone through once more, lexeme by lexeme and by the same tables, to see
// what shows the answer, and what else is wrong.
#![tactic(auto)]

mod course;
mod gone;
mod judged;
mod reason;
mod told;
mod words;

pub use told::say_bad_file;
