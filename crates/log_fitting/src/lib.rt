// That what records hold of a list of updates fits a log: the types of the fields bound the numbers. This crate has no code.
#![tactic(auto)]
