// What a reader of JSON keeps of a lexeme, as records. This crate has no code: specs/ says what a byte does to each of them, and proofs/ that a reader
// which goes by that says what the rule says of a lexeme.
#![tactic(auto)]

// Of a text, beside its first 97 bytes after decoding: the length, which stops at 97, or is 98 where half of a pair stood without the other: that is JSON,
// but no UTF-8. The unit is what the last four hexadecimal digits say. The high half of a pair waits for its low half, and is 0 where none waits.
#[derive(Clone, Copy)]
pub struct Text {
    pub len: usize,
    pub unit: u32,
    pub high: u32,
}

// Of a number, the magnitude of its digits before point and exponent. One of 2^64 or more fits no field; how large it is, is not kept: `over` is 1 then, and 0
// else. It is no bool, so that no unused bytes follow it.
#[derive(Clone, Copy)]
pub struct Number {
    pub magnitude: u64,
    pub over: u64,
}

// In which mode the reader is; the first byte of the lexeme that it is in, and the place of that; what is kept of it. The numbers leave no unused bytes between
// them: with some, which are copied at every byte too, reading took four times as long.
#[derive(Clone, Copy)]
pub struct Lexer {
    pub mode: u32,
    pub head: u32,
    pub first: usize,
    pub text: Text,
    pub number: Number,
}
