// The audit of a session on a page: the auditor's three questions, each with its answer from files, the theorem behind it and what it rests on. The page is
// plain words, made to be printed and signed.
// Nothing is decided here: the verdict is that of the crate `verdict`, the moments are those of `moment`, whether a history is whole is asked of `histories`,
// and whether row ranges are apart of `row_ranges`.
#![tactic(auto)]

pub mod first;
pub mod front;
pub mod second;
pub mod third;
