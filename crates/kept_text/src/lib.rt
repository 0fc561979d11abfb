// One more byte of a text of any length, of which a few slots keep what its limit or its trimmed length needs. Nothing is refused.
// Proved of the functions: each does with one byte what `keepByte` or `lengthWith` of specs/ says.
// Proved of those definitions, byte after byte over a whole text: what 23 slots or more keep has the text's limit (`same-limit`), and the
// length answers for the text's trimming (`same-trim`), both as document 01 has it in Limit and Names of the crate `rules`.
// Not proved: that a reader hands over each byte of its text, in order; that is to be read in its loop.
#![tactic(auto)]

pub mod limit;
pub mod location;
