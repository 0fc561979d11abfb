// What stands in front of a case, and what follows its answer.
use tokens::field::unsigned_of;
use tokens::input::Input;
use tokens::output::Output;
use tokens::token::{Token, read_token};
use tokens::wanted::Wanted;

// The kind of the next case, from 1 to the highest that is wanted; 0 at the end of the input, between cases.
pub fn read_case(input: &mut Input, wanted: Wanted, highest: u64) -> u64 {
    input.begin_piece();
    let token = read_token(input);
    if token == Token::Blank {
        return 0;
    }
    match unsigned_of(token, highest) {
        Some(kind) if kind > 0 => kind,
        _ => {
            input.spoil(wanted);
            0
        }
    }
}

// An answer is written out as soon as what comes next may have to be waited for.
pub fn end_answer(input: &Input, output: &mut Output) {
    if input.is_used_up() {
        output.flush();
    }
}
