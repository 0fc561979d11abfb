// Document 02, request (vi), as definitions: which bytes are JSON, what is wrong with a list of updates, and which updates it is.
// This crate has no code. Its definitions stand in specs/, and what is true of them alone in proofs/.
#![tactic(auto)]
