// That the metadata which the cells of a file and its bytes hold is the metadata that the rule says, where nothing is wrong with the file.
// This crate has no code.
#![tactic(auto)]
