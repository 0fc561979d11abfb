// That a log that is written as published JSON is read back: what the rule of lists of updates reads of what is written. This crate has no code.
#![tactic(auto)]
