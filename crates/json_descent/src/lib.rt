// The tree of a text read from its lexemes without a count of steps, for a reader that goes down by calls: one law a production, and that what is left is shorter.
// This crate has no code.
#![tactic(auto)]
