// Numbers from a file or a text and to standard output, a buffer at a time: an input of any length is read.
// A token that is no number, or none of the field that it is read for, spoils the input: nothing is read from then on, and where it stands and
// what was wanted there is kept.
// The page of the case format decides what a token is and how wide a field is.
#![tactic(auto)]

pub mod field;
pub mod input;
pub mod number;
pub mod output;
pub mod source;
pub mod token;
pub mod wanted;
