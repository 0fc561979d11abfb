// The laws of the run's loop: how the pieces that a run holds stand to a state of the rules, and how each update moves both.
// There is no function here. Document 01 decides, as the crate `rules` writes it in Run and Updates.
#![tactic(auto)]
