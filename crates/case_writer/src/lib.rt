// The case format, written: a record is turned into its card, and a card is written by its layout.
// A table or a text above its capacity is written with its count, and as many elements as there are slots for.
// The page of the case format decides.
#![tactic(auto)]

pub mod ids;
mod layout;
pub mod metadata;
pub mod snapshot;
pub mod table;
pub mod text;
pub mod update;
