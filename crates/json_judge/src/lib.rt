// A list of updates judged lexeme by lexeme, with a stack of what is open: that it finds what the rule finds in the tree, and sends what the rule takes from it.
// This crate has no code.
#![tactic(auto)]
