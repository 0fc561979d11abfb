// Partition fields against each other, against the fields of a schema, and against the specs that are held; the ids that a spec reuses and those that it is
// given, and the offer that is logged.
// Document 02, request (ix), as the crate `rules` writes it in SpecUpdates and Partitions.
#![tactic(auto)]

pub mod columns;
pub mod fresh;
pub mod names;
pub mod offer;
pub mod pairs;
pub mod repeats;
pub mod reuse;
mod slots;
