// What is held of an open update of a published list: a number for each spot, the elements of its lists, its texts and the fields that were closed; and the
// update and the offer that are made of them when it is closed.
#![tactic(auto)]

pub mod numbers;
pub mod offer;
pub mod puts;
pub mod record;
pub mod texts;
pub mod update;
