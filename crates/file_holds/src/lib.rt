// That the cells hold the values of a metadata file with which nothing is wrong, member by member, and what is read of lexemes in a tree.
// This crate has no code.
#![tactic(auto)]
