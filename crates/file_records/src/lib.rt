// From the cells of a metadata file and its bytes to the records: values, records, tables in order, the whole metadata.
#![tactic(auto)]

pub mod current_snapshot;
pub mod fields;
pub mod keyed;
pub mod metadata;
pub mod offsets;
pub mod order;
pub mod partition;
pub mod record;
pub mod refs;
pub mod slots;
pub mod table;
pub mod text;
pub mod value;
