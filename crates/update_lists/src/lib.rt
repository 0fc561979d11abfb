// Lists of updates as published JSON: the case of one, and one that stands in a file or comes from standard input.
// Nothing is refused but what can not be read; a list that is refused is answered, or told, with its number and place.
// The crate `json_list` decides.
#![tactic(auto)]

pub mod case;
pub mod file;
