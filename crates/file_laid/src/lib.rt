// That the metadata which the cells of a file and its bytes hold fits into the records with slots: laid out it reads as it was, and it is tidy.
// This crate has no code.
#![tactic(auto)]
