// The texts of the files that a session makes, and these files: its metadata, its change log and the names of the expired metadata files.
// Either all that are asked for are made, or none is.
#![tactic(auto)]

pub mod session;
pub mod text;
