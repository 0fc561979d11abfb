// That what is made of the stored members of an update is what the rule makes of the members themselves, and the list of such updates, one after the other. This
// crate has no code.
#![tactic(auto)]
