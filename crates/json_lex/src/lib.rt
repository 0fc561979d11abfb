// Lexemes of JSON (RFC 8259), a byte at a time: in which mode the reader is after a byte, and what it keeps of a text and of a number.
// A lexeme is told by its first byte. Nothing is refused here: a byte that can not continue its lexeme makes it a broken one.
// Texts are UTF-8 by RFC 3629. Of a text its first 97 bytes after decoding are kept: one more than the longest that any record holds.
// Proved of each function: it does with a byte what Modes, Digest or Lexing of the crate `json_machine` says. Proved there of those definitions, byte after byte
// over a whole lexeme: the reader ends and breaks it where the rule does (`mode-step`), and what it keeps is what the rule says that it stands for (`lexed`).
#![tactic(auto)]

pub mod byte;
pub mod lexer;
pub mod mode;
pub mod number;
pub mod plain;
pub mod text;
