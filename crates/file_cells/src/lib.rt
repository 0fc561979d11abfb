// Where the values of a metadata file are held while it is read: each in cells of its own, by the tables of the rule. This crate has no code.
#![tactic(auto)]
