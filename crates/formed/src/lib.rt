// Well-formed metadata and updates, as records: unused places are blank, bounds are kept, and the tables agree.
// Any value is answered.
// Document 01, "Capacities and well-formed records", as the crate `rules` writes it in Blanks and WellFormed.
#![tactic(auto)]

pub mod blanks;
pub mod bounds;
pub mod metadata;
pub mod order;
pub mod record;
pub mod slot;
pub mod slots;
pub mod update;
