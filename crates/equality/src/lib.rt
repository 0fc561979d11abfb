// When two records are the same: a function for each, and one definition that it decides.
// `whole` compares every field and every slot, also those that do not count: behind a flag that is not set, and past a count.
// `read` compares what the rules read of a record, and no more.
#![tactic(auto)]

pub mod read;
pub mod slots;
pub mod text;
pub mod whole;
