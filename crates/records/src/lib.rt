// The records of the register: metadata, updates, what a run is given and what it answers, each with its capacity and its blank.
// Nothing is refused here: any value of these types is a value that the entry points answer.
// Which values are well formed is said by the crate `rules`.
#![tactic(auto)]

pub mod capacities;
pub mod counters;
pub mod metadata;
pub mod part;
pub mod partition;
pub mod reference;
pub mod replies;
pub mod run;
pub mod schema;
pub mod snapshot;
pub mod sort_order;
pub mod statistics;
pub mod text;
pub mod update;
