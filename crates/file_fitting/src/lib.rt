// That what records hold fits a metadata file: the types of the fields bound the numbers. This crate has no code.
#![tactic(auto)]
