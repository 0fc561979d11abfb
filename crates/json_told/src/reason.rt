// Why a lexeme is refused, by what the judge wanted before it.
use crate::field::Member;
use json_lex::text::Kept;
use json_members::name::member_of;
use json_members::nest::{FIRST_NAME, NAME, closes};
use json_members::refusal::{NOT_JSON, OVER_CAPACITY};
use json_members::row::row_of;
use json_members::spot::{ACTION, ANYTHING, FIELD_REQUIRED, FIELD_TYPE, UPDATE};
use json_members::state::{EXPECT, Judge, KINDS, WANTED, WITHIN, is_seen, kind_of};

#[derive(Clone, Copy, PartialEq, Eq, Debug)]
pub enum Reason {
    Broken,
    Ended,
    Unlisted,
    Unknown,
    Repeated,
    OfAnotherAction,
    // The object that lacks a member, by its spot.
    Missing(usize),
    // The last member that an update must have.
    MissingOfUpdate(usize),
    // The spot of a value that is not what is published there.
    Otherwise(usize),
    // Of a schema, for a member of one of its fields, and where the name of that stands, if it was read.
    OfField(Member, Option<usize>),
    // The spot that has a capacity.
    Over(usize),
    Deep,
    // Not seen in the part of the text that is held: the number.
    Unseen(usize),
}

// What a lexeme would be; a name, why it is refused if it is.
#[derive(Clone, Copy, PartialEq, Eq, Debug)]
enum Lexeme {
    End,
    Name(Reason),
    Value,
}

// What is seen before the judge takes a lexeme: which value is wanted, in which list or object, the last member that the open update must have, and what the
// lexeme would be there.
#[derive(Clone, Copy, PartialEq, Eq, Debug)]
pub struct Before {
    wanted: usize,
    within: usize,
    must: usize,
    lexeme: Lexeme,
}

// Why a name is refused, if it is.
fn why_named(judge: &Judge, kept: &Kept, len: usize) -> Reason {
    let spot = member_of(judge[WITHIN], kept, len);
    if spot == ANYTHING {
        return Reason::Unknown;
    }
    if is_seen(judge, spot) {
        return Reason::Repeated;
    }
    Reason::OfAnotherAction
}

fn lexeme_of(judge: &Judge, kept: &Kept, head: u8, len: usize) -> Lexeme {
    let expect = judge[EXPECT];
    if closes(expect, judge[KINDS], head) {
        return Lexeme::End;
    }
    match expect {
        NAME | FIRST_NAME => Lexeme::Name(why_named(judge, kept, len)),
        _ => Lexeme::Value,
    }
}

impl Before {
    pub fn of(judge: &Judge, kept: &Kept, head: u8, len: usize) -> Before {
        Before {
            wanted: judge[WANTED],
            within: judge[WITHIN],
            must: row_of(kind_of(judge)).must,
            lexeme: lexeme_of(judge, kept, head, len),
        }
    }

    // Over a capacity: a list at its bracket, a text where it stands; or a bracket too many.
    fn why_over(self, head: u8, is_here: bool) -> Reason {
        if !is_here {
            return Reason::Over(self.within);
        }
        if head == b'"' {
            return Reason::Over(self.wanted);
        }
        Reason::Deep
    }

    // A value that is not as it is published. An action may refuse a name that stands before it.
    fn why_value(self, is_here: bool, field: Option<usize>) -> Reason {
        match self.wanted {
            FIELD_REQUIRED => Reason::OfField(Member::Required, field),
            FIELD_TYPE => Reason::OfField(Member::Type, field),
            ACTION => if is_here {
                Reason::Unlisted
            } else {
                Reason::OfAnotherAction
            },
            _ => Reason::Otherwise(self.wanted),
        }
    }

    fn why_missing(self) -> Reason {
        if self.within == UPDATE {
            return Reason::MissingOfUpdate(self.must);
        }
        Reason::Missing(self.within)
    }

    // Why a lexeme is refused with this number: at its own place, or at one before it. The name of the open field stands at a place, if it was read.
    pub fn why_refused(
        self,
        head: u8,
        number: usize,
        is_here: bool,
        field: Option<usize>,
    ) -> Reason {
        match number {
            NOT_JSON => Reason::Broken,
            OVER_CAPACITY => self.why_over(head, is_here),
            _ => match self.lexeme {
                Lexeme::End => self.why_missing(),
                Lexeme::Name(why) => why,
                Lexeme::Value => self.why_value(is_here, field),
            },
        }
    }
}
