// Records in plain words for people to read, one to a line: texts, names and numbers first, then templates, tables and updates.
// Nothing is refused: a count above a table's slots is said, with as many elements as there are slots for.
// Document 01 decides what the words of a refusal are. What is said of an input that can not be read stands here too.
#![tactic(auto)]

pub mod fault;
pub mod metadata;
pub mod name;
pub mod number;
mod record;
pub mod reply;
pub mod table;
pub mod template;
pub mod text;
pub mod time;
pub mod update;
