// Files by their names: metadata and lists of updates, each as published JSON or in the case format. What begins with `{` or `[` is JSON.
// What can not be read, or is refused, gets the lines that say so, and is not held.
#![tactic(auto)]

pub mod list;
pub mod metadata;
mod whole;
