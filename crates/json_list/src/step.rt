// One byte: the lexeme that it ends is judged, and what is right is put where it belongs.
ghost use Rattle.std.specs.Prelude.{◌≡◌, ◌<◌, false};
ghost use Rattle.json_machine.specs.Lexing.{reading};
ghost use Rattle.json_members.specs.Model.{told, taking};
ghost use Rattle.json_store.specs.Puts.{store};
ghost use Rattle.json_list.specs.Listing.{work, worked_to, putting_of};
ghost use Rattle.json_list.specs.Turns.{run_of, turn_of, stepped};

use json_lex::lexer::{Lexer, head_of, in_mode, is_whole_number, with_next};
use json_lex::mode::{BETWEEN, BROKEN, ENDED, STOPPED, after, is_mode};
use json_lex::text::Kept;
use json_members::judge::{take, take_broken};
use json_members::spot::ANYTHING;
use json_members::state::Judge;
use json_store::numbers::Numbers;
use json_store::puts::put_done;
use json_store::texts::Texts;

// Where reading stands in a part: in a lexeme, at which byte, and what the byte before made whole.
#[derive(Clone, Copy)]
pub struct Run {
    pub lexer: Lexer,
    pub at: usize,
    pub done: usize,
}

// In a mode at a byte, with what was made whole.
pub fn run_of(l: Lexer, mode: u32, at: usize, done: usize) -> Run
    ensures { result ≡ run_of l mode at done }
{
    Run {
        lexer: in_mode(l, mode),
        at,
        done,
    }
}

// A whole lexeme, by its first byte and the place of that, and by what is kept of it: what it makes whole is told. It comes as numbers, and not as a record,
// as it is called for every lexeme and from more places than one.
pub fn whole(
    kept: &Kept,
    head: u8,
    first: usize,
    len: usize,
    integer: bool,
    magnitude: u64,
    judge: &mut Judge,
    numbers: &mut Numbers,
    texts: &mut Texts,
) -> usize
    ensures { worked_to (work judge.new numbers.new texts.new) result ≡ putting_of (told kept.now head 0 len false magnitude) (store numbers.old texts.old) (taking (told kept.now head first len integer magnitude) judge.old) }
{
    let done = take(judge, kept, head, first, len, integer, magnitude);
    if done == ANYTHING {
        return ANYTHING;
    }
    put_done(done, kept, head, len, magnitude, judge, numbers, texts);
    done
}

// The byte at a place. It continues the lexeme, or begins or ends one; or it shows that a number ended before it, and then it is looked at again.
pub fn step(
    lexer: Lexer,
    at: usize,
    byte: u8,
    place: usize,
    kept: &mut Kept,
    judge: &mut Judge,
    numbers: &mut Numbers,
    texts: &mut Texts,
) -> Run
    requires { at < 18446744073709551615 }
    ensures { turn_of result kept.new (work judge.new numbers.new texts.new) ≡ stepped byte place at (reading lexer kept.old) (work judge.old numbers.old texts.old) }
{
    let next = after(lexer.mode, byte);
    if next == BROKEN {
        take_broken(judge, head_of(lexer), lexer.first, place);
        return run_of(lexer, STOPPED, at + 1, ANYTHING);
    }
    if next == ENDED {
        let done = whole(
            kept,
            head_of(lexer),
            lexer.first,
            lexer.text.len,
            is_whole_number(lexer),
            lexer.number.magnitude,
            judge,
            numbers,
            texts,
        );
        return run_of(lexer, BETWEEN, at, done);
    }
    let l = with_next(lexer, kept, byte, place);
    if is_mode(next) {
        return run_of(l, next, at + 1, ANYTHING);
    }
    let done = whole(
        kept,
        head_of(l),
        l.first,
        l.text.len,
        is_whole_number(l),
        l.number.magnitude,
        judge,
        numbers,
        texts,
    );
    run_of(l, BETWEEN, at + 1, done)
}
