// The leaves: the limit of the metadata log, the time window, the row-id check, trimmed locations and the order of names.
// A row range is refused with 9 or 11; every other function answers any input.
// Document 01 decides, as the crate `rules` writes it in Limit, Window, RowIds and Names.
#![tactic(auto)]

pub mod limit;
pub mod location;
pub mod names;
pub mod row_ids;
pub mod window;
