// That what is held of an open update follows the tree of the text. This crate has no code: proofs/ says what the store of `json_store` holds against what the sender of
// `json_judge` holds as trees, and that every lexeme keeps the two together as long as nothing is refused.
#![tactic(auto)]
