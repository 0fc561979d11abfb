// Metadata files among the cases of the case format: an import, and an export into a buffer of a length that the case names.
// Nothing is refused but what can not be read; an import or an export that is refused is answered with its number.
// The crates `file_import` and `file_export` decide.
#![tactic(auto)]

pub mod export;
pub mod import;
