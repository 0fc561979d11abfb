// The case format, read: for each piece the function that reads it.
// Nothing is refused but what is no number of its field, and a tag that may not stand where it stands: a count above a table's capacity is
// kept, and what has no slot is skipped.
// The page of the case format decides.
#![tactic(auto)]

pub mod case;
pub mod ids;
pub mod limit_text;
pub mod metadata;
pub mod more;
pub mod offer;
pub mod partition;
pub mod reference;
pub mod run;
pub mod schema;
pub mod snapshot;
pub mod sort_order;
pub mod statistics;
pub mod text;
pub mod untrimmed;
pub mod update;
pub mod walk_terms;
