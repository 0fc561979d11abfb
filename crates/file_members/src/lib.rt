// What the published document says of a metadata file, by numbers: which member a name is, in which version; what its value is to be, and what is wrong with
// one; how many a list may have; where the cells of a value begin; and which members a record lacks. The tables are those of request (vii) of document 02.
#![tactic(auto)]

pub mod cell;
pub mod kind;
pub mod name;
pub mod seen;
pub mod spot;
pub mod standing;
pub mod value;
pub mod want;
