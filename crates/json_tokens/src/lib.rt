// The next lexeme of JSON text in a lent slice, from a place on (RFC 8259, section 2), and what is kept of it: of a text its first 97 bytes after decoding,
// of a number whether it is an integer below 2^64, and its magnitude. Nothing is refused here: a lexeme that breaks off is told, with the place where it does.
// Which lexemes there are is said by the rule of the crate `json_rule`; Tokens of specs/ says what is answered of them.
#![tactic(auto)]

pub mod bare;
pub mod space;
pub mod text;
pub mod token;

pub use token::{BROKEN, END, Token, WHOLE, next, room};
