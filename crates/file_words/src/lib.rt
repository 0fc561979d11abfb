// The words of a command: which command it is; and of one that goes by files, which of them name files, which are options, and what stands behind each.
// An option begins with `--`, and the word behind it is its value; they stand in any order, before, between and behind the files.
// Nothing is refused here: a value that is none of its option is named, for the command to say.
#![tactic(auto)]

pub mod file;
pub mod option;
pub mod terms;
mod which;

pub use which::Command;
