// The builder: what a run holds beside its tables, the decision on an update, and what the crates of the updates share.
// A decision that refuses gives document 01's number; what else it holds is then of no use.
// Document 01, "Rules for each update", as the crate `rules` writes it in the files named for the updates.
#![tactic(auto)]

pub mod builder;
pub mod checks;
pub mod choice;
pub mod decision;
pub mod facts;
pub mod single;
pub mod text;
