// Expiries by retention: read, answered in numbers, and told in plain words, with the run of the list that is made.
// Nothing is refused but what can not be read: what the expiry refuses is told with its reason.
// The crate `expiry` decides what goes and what stays; the page of the case format, how an expiry is written.
#![tactic(auto)]

pub mod asked;
pub mod list;
mod refusal;
mod sums;
pub mod told;
mod why;
