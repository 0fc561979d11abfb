// The records as cards of the case format: single numbers, a text and a list, in the order of docs/CASES.md.
// Nothing is refused: a count above the slots is kept, with as many elements as there are slots for.
// Whoever writes a record, for a program or for people, writes its card: one function with an output instead of one a record.
#![tactic(auto)]

pub mod card;
pub mod field;
pub mod item;
pub mod offer;
pub mod partition;
pub mod record;
pub mod table;
pub mod update;
