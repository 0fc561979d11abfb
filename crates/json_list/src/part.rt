// From a place of a part to the end of an update, or of the part.
ghost use Rattle.std.specs.Prelude.{◌+◌, ◌<◌, length};
ghost use Rattle.json_machine.specs.Lexing.{reading};
ghost use Rattle.json_list.specs.Listing.{work};
ghost use Rattle.json_list.specs.Turns.{turn, turn_of};
ghost use Rattle.json_list.specs.Parts.{PastPlain, ReadsOn};

use crate::step::{Run, step};
use json_lex::lexer::Lexer;
use json_lex::mode::TEXT;
use json_lex::plain::{keep_all, plain_end};
use json_lex::text::{Kept, settled};
use json_members::spot::{ANYTHING, UPDATE};
use json_members::state::Judge;
use json_store::numbers::Numbers;
use json_store::texts::Texts;

// Behind the plain bytes of a text, which are kept and counted, if the reader stands in one.
fn past_plain(l: Lexer, from: usize, part: &[u8], kept: &mut Kept) -> Run
    requires { from < length part.now }
    ensures { PastPlain part.now from (reading l kept.old) result.at (reading result.lexer kept.new) result.done }
{
    if l.mode != TEXT {
        return Run {
            lexer: l,
            at: from,
            done: ANYTHING,
        };
    }
    let end = plain_end(part, from);
    if end <= from {
        return Run {
            lexer: l,
            at: from,
            done: ANYTHING,
        };
    }
    let mut m = l;
    let mut text = settled(l.text);
    text.len = keep_all(kept, text.len, part, from, end);
    m.text = text;
    Run {
        lexer: m,
        at: end,
        done: ANYTHING,
    }
}

// One turn: the plain bytes of a text, and the byte behind them.
fn turn_on(
    run: Run,
    part: &[u8],
    before: usize,
    kept: &mut Kept,
    judge: &mut Judge,
    numbers: &mut Numbers,
    texts: &mut Texts,
) -> Run
    requires { (run.at < length part.now) × (before + length part.now < 18446744073709551616) }
    ensures { ReadsOn before part.now (turn (reading run.lexer kept.old) (work judge.old numbers.old texts.old) run.at 0) (turn_of result kept.new (work judge.new numbers.new texts.new)) }
{
    let r = past_plain(run.lexer, run.at, part, kept);
    let at = r.at;
    if at < part.len() {
        return step(
            r.lexer,
            at,
            part[at],
            before + at,
            kept,
            judge,
            numbers,
            texts,
        );
    }
    r
}

pub fn read_on(
    start: Run,
    part: &[u8],
    before: usize,
    kept: &mut Kept,
    judge: &mut Judge,
    numbers: &mut Numbers,
    texts: &mut Texts,
) -> Run
    requires { (start.at < length part.now) × (before + length part.now < 18446744073709551616) }
    ensures { ReadsOn before part.now (turn (reading start.lexer kept.old) (work judge.old numbers.old texts.old) start.at 0) (turn_of result kept.new (work judge.new numbers.new texts.new)) }
{
    let mut run = start;
    run.done = ANYTHING;
    // Kept: a turn passes many bytes or, where a number ends before one, none; an iterator over the bytes would not say where reading stands.
    while run.at < part.len() && run.done != UPDATE {
        run = turn_on(run, part, before, kept, judge, numbers, texts);
    }
    run
}
