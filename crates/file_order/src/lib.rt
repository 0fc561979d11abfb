// The order of members and of table records in a metadata file does not matter.
// This crate has no code.
#![tactic(auto)]
