// That what a reader of a list of updates as JSON answers at the end of a text is what the rule answers to all of its bytes, in whatever parts it came. This crate has
// no code.
#![tactic(auto)]
