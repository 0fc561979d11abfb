// Document 02, request (viii), as definitions: which refs and snapshots a retention policy keeps, the list of updates that lets the others go, and what a run
// of that list answers. This crate has no code. Its definitions stand in specs/, and what is true of them alone in proofs/.
#![tactic(auto)]
