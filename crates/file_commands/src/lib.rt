// The commands that go by files and ask no run: what a file holds, metadata written as a file, which snapshot was current; and what the words of every such
// command ask.
// What can not be read, or is refused, gets the lines that say so.
#![tactic(auto)]

pub mod asked;
pub mod export;
pub mod import;
pub mod moments;
pub mod read;
