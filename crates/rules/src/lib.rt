// Document 01 as definitions: which metadata and updates are well formed, what each update and the close do, what a run answers.
// This crate has no code. Its definitions stand in specs/, and what is true of them alone in proofs/.
#![tactic(auto)]
