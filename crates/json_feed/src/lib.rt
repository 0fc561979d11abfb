// Bytes one after another to what takes the lexemes, whatever that is: that it takes what the rule reads of them. This crate has no code.
#![tactic(auto)]
