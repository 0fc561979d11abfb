// JSON put into a lent buffer, piece by piece: bytes, numbers and texts. Each function gives the place behind what it put, and asks nothing of the buffer: where there is no
// room for a piece, it is only counted.
// Kept: buffer and place are two parameters, since the public functions here, in `file_tables` and in `log_writer` take them so and say `Puts buffer.old at .. buffer.new`.
// Kept: whether a piece is wanted is a parameter too, since the public functions say `only_if wanted ..` of it.
#![tactic(auto)]

pub mod bytes;
pub mod list;
pub mod numbers;
pub mod texts;
