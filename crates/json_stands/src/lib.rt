// That the judge in slots follows the judge lexeme by lexeme. This crate has no code: proofs/ says what the slots of `json_members` stand for, and that one more
// lexeme leads them to what they stand for next.
#![tactic(auto)]
