// A list of updates as published JSON, read in parts that are cut anywhere: document 02, request (vi).
// What is answered is the list, or the least refusal: 27, 28 or 29, and the place of a byte. Then the list is empty, and the bytes of the offers are 0.
#![tactic(auto)]

pub mod last;
pub mod part;
pub mod reader;
pub mod step;

pub use reader::{Answer, Reader, end, feed, start};
