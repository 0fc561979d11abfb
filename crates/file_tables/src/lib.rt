// Metadata files as published JSON, put into a lent buffer: records, tables, and the file. Nothing is asked of the metadata, and nothing of the buffer: where there is no room for
// a piece, it is only counted. Document 02 decides, request (vii), as the crate `file_rule` writes it in Files.
#![tactic(auto)]

pub mod file;
pub mod number;
pub mod record;
pub mod table;
