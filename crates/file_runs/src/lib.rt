// The commands that go by files and ask a run: a session, the replay of a stored log, its audit, and an expiry.
// What can not be read, or is refused, gets the lines that say so.
// The crates `register`, `verdict` and `expiry` decide.
#![tactic(auto)]

pub mod audit;
pub mod expire;
mod question;
pub mod replay;
pub mod session;
