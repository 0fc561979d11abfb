// A text, gone through as a reader does: each lexeme is given to the judge, and where that refuses, the refusal is noted and taken back, so that the next
// one is seen too.
use crate::found::{Defect, Found};
use crate::reason::{Before, Reason};
use json_lex::lexer::{Lexer, between, head_of, in_mode, is_whole_number, with_next};
use json_lex::mode;
use json_lex::mode::{BETWEEN, STOPPED, after, begun, is_mode, may_end};
use json_lex::text::{KEPT, Kept};
use json_members::judge::{take, take_broken, take_end};
use json_members::refusal::NOT_PUBLISHED;
use json_members::row::{is_foreign, row_of};
use json_members::spot::{ACTION, FIELD_NAME, SPEC_IDS};
use json_members::state::{
    FIELD, Judge, NUMBER, PLACE, is_seen, kind_of, named_at, start as judging,
};

// How far a text was gone through: the open lexeme and its text, the judge, where the name of a field was read last, and what was found.
#[derive(Drop)]
struct Course {
    lexer: Lexer,
    kept: Kept,
    judge: Judge,
    field_named: Option<usize>,
    found: Found<Reason>,
}

impl Course {
    fn start() -> Course {
        Course {
            lexer: between(),
            kept: [0; KEPT],
            judge: judging(),
            field_named: None,
            found: Found::nothing(),
        }
    }

    // Where the name of the open field stands, if it was read.
    fn field(&self) -> Option<usize> {
        match self.field_named {
            Some(at) if at > self.judge[FIELD] => Some(at),
            _ => None,
        }
    }

    // A refusal by the judge is noted and taken back. A field is shown by the lexeme at fault, anything else by its own place.
    fn take_back(&mut self, reason: Reason, first: usize) {
        let number = self.judge[NUMBER];
        let place = self.judge[PLACE];
        let at = match reason {
            Reason::OfField(_, _) => first,
            _ => place,
        };
        if number != 0 {
            self.judge[NUMBER] = 0;
            self.found.note(Defect {
                number,
                place,
                at,
                reason,
            });
        }
    }

    // Names that stood before the action and stand in no row of it: the judge keeps the first of them.
    fn note_foreign(&mut self) {
        let row = row_of(kind_of(&self.judge));
        for spot in ACTION..=SPEC_IDS {
            if is_foreign(row, spot) && is_seen(&self.judge, spot) {
                let place = named_at(&self.judge, spot);
                self.found.note(Defect {
                    number: NOT_PUBLISHED,
                    place,
                    at: place,
                    reason: Reason::OfAnotherAction,
                });
            }
        }
    }

    // The open lexeme is whole.
    fn end_lexeme(&mut self) {
        let l = self.lexer;
        let head = head_of(l);
        let first = l.first;
        let len = l.text.len;
        let before = Before::of(&self.judge, &self.kept, head, len);
        let done = take(
            &mut self.judge,
            &self.kept,
            head,
            first,
            len,
            is_whole_number(l),
            l.number.magnitude,
        );
        if done == FIELD_NAME {
            self.field_named = Some(first);
        }
        let number = self.judge[NUMBER];
        let is_here = self.judge[PLACE] == first;
        let reason = before.why_refused(head, number, is_here, self.field());
        if reason == Reason::OfAnotherAction && number != 0 {
            self.note_foreign();
        }
        self.take_back(reason, first);
        self.lexer = in_mode(l, BETWEEN);
    }

    // A byte, or the end of the text, broke the open lexeme.
    fn break_lexeme(&mut self, place: usize, reason: Reason) {
        let l = self.lexer;
        take_broken(&mut self.judge, head_of(l), l.first, place);
        self.take_back(reason, place);
        self.lexer = in_mode(l, STOPPED);
    }

    // What a byte does, by the mode after it.
    fn go_on(&mut self, next: u32, byte: u8, place: usize) {
        if next == mode::BROKEN {
            self.break_lexeme(place, Reason::Broken);
            return;
        }
        self.lexer = with_next(self.lexer, &mut self.kept, byte, place);
        if is_mode(next) {
            self.lexer = in_mode(self.lexer, next);
        } else {
            self.end_lexeme();
        }
    }

    // One more byte. It may show that a number ended before it, and then begins what follows.
    fn step(&mut self, byte: u8, place: usize) {
        let next = after(self.lexer.mode, byte);
        if next == mode::ENDED {
            self.end_lexeme();
            self.go_on(begun(byte), byte, place);
        } else {
            self.go_on(next, byte, place);
        }
    }

    // The end of the text: a number may end there.
    fn finish(&mut self, len: usize) {
        if may_end(self.lexer.mode) {
            self.end_lexeme();
        } else if self.lexer.mode != BETWEEN {
            self.break_lexeme(len, Reason::Ended);
        }
        take_end(&mut self.judge, len);
        self.take_back(Reason::Ended, len);
    }
}

// The defects of a text. Of one that goes on behind what is held, those that show up to there.
pub fn find(text: &[u8], is_whole: bool) -> Found<Reason> {
    let mut course = Course::start();
    for (at, &byte) in text.iter().enumerate() {
        course.step(byte, at);
    }
    if is_whole {
        course.finish(text.len());
    }
    course.found
}
