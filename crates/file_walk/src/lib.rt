// A metadata file, read from its bytes: what is wrong with it, the least refusal, and what its cells hold, with how many members the file skips. Nothing is
// refused here but what the rule of the crate `file_rule` refuses; what is read of a text that stops is read as far as it goes.
#![tactic(auto)]

pub mod cells;
pub mod name;
pub mod names;
pub mod reader;
pub mod scalar;
pub mod seat;
