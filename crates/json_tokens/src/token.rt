// The next lexeme.
ghost use Rattle.std.specs.Prelude.{◌≡◌, length};
ghost use Rattle.json_tokens.specs.Outcomes.{plain_token};
ghost use Rattle.json_tokens.specs.Tokens.{TokenAt};

use crate::bare::read_bare;
use crate::space::past_spaces;
use crate::text::read_text;
use json_lex::mode;
use json_lex::mode::begun;
use json_lex::text::Kept;

// Kept: the three are numbers, as `TokenAt` of Tokens (specs/), which `next` ensures, says them of a token.
// No lexeme comes any more.
pub const END: usize = 0;

// A whole lexeme.
pub const WHOLE: usize = 1;

// A lexeme that breaks off.
pub const BROKEN: usize = 2;

// Which of the three it is; the lexeme's first byte, and the place of that. Of a whole one: the place behind it, and what is kept of a text and of a
// number. Of one that breaks off: the place of the byte that can not continue it, or the end.
#[derive(Clone, Copy)]
pub struct Token {
    pub state: usize,
    pub head: u8,
    pub first: usize,
    pub after: usize,
    pub stop: usize,
    pub len: usize,
    pub integer: bool,
    pub magnitude: u64,
}

// No lexeme, or one of which nothing is kept.
fn plain_token(state: usize, head: u8, first: usize, at: usize) -> Token
    ensures { result ≡ plain_token state head first at }
{
    Token {
        state,
        head,
        first,
        after: at,
        stop: at,
        len: 0,
        integer: false,
        magnitude: 0,
    }
}

// There are as many slots as the type says, which a proof learns where they are lent as a slice. Nothing is done with them.
pub fn room(kept: &Kept)
    ensures { length kept.now ≡ 97 }
{
    let slots = &kept[..];
}

// The first lexeme from a place on.
pub fn next(bytes: &[u8], from: usize, kept: &mut Kept) -> Token
    ensures { TokenAt bytes.now from result kept.new }
{
    room(kept);
    let first = past_spaces(bytes, from);
    if first >= bytes.len() {
        return plain_token(END, 0, first, first);
    }
    let head = bytes[first];
    if head == b'"' {
        let token = read_text(bytes, first, first + 1, kept);
        room(kept);
        return token;
    }
    let mode = begun(head);
    if mode == mode::WHOLE {
        return plain_token(WHOLE, head, first, first + 1);
    }
    read_bare(bytes, head, first, first + 1, mode)
}
