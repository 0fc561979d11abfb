// What is wrong with a lexeme where it stands, and what is open behind it.
use crate::course::{Course, DEEPEST, Expect, Opened};
use crate::reason::Reason;
use file_members::kind;
use file_members::kind::{HELD_SNAPSHOT, NO_KIND, THE_FILE};
use file_members::name::member;
use file_members::seen::lacks;
use file_members::spot::{FIELD_NAME, FIELD_REQUIRED, FORMAT_VERSION, PARTITION_NAME};
use file_members::standing::{REQUIRED, standing};
use file_members::value::fault_of;
use file_members::want::{
    A_REF, THE_WHOLE_FILE, is_at_schema, item_of, named_of, passes_over, record_of, room_of,
    want_of,
};
use json_lex::text::Kept;
use json_tokens::Token;
use json_told::field::Member;
use json_told::found::Defect;

pub const NOT_JSON: usize = 27;

pub const NOT_PUBLISHED: usize = 28;

pub const OVER_CAPACITY: usize = 29;

pub const LACKING: usize = 30;

// Texts have room for so many bytes: names of refs and of fields, and all others.
const NAME_BYTES: usize = 32;

const TEXT_BYTES: usize = 96;

fn bytes_of(want: usize) -> usize {
    match want {
        FIELD_NAME | PARTITION_NAME => NAME_BYTES,
        _ => TEXT_BYTES,
    }
}

fn member_of(want: usize) -> Member {
    if want == FIELD_REQUIRED {
        return Member::Required;
    }
    Member::Type
}

// The position of a member among those of its record.
fn position(record: usize, spot: usize) -> usize {
    spot.wrapping_sub(kind::first_of(record))
}

impl Course {
    pub fn note(&mut self, number: usize, place: usize, reason: Reason) {
        self.found.note(Defect {
            number,
            place,
            at: place,
            reason,
        });
    }

    // What is wanted of the value that comes.
    fn wanted(&self) -> usize {
        if self.depth() == 0 {
            return THE_WHOLE_FILE;
        }
        match self.innermost().opened {
            Opened::List(each) => each,
            _ => self.pending,
        }
    }

    // A value that is not what is wanted: at its own place, or for a field at its schema.
    fn note_otherwise(&mut self, want: usize, first: usize) {
        if is_at_schema(want) {
            let level = *self.innermost();
            self.found.note(Defect {
                number: NOT_PUBLISHED,
                place: level.schema,
                at: first,
                reason: Reason::OfField(member_of(want), level.field_named),
            });
        } else {
            self.note(NOT_PUBLISHED, first, Reason::Otherwise(want));
        }
    }

    // A text, a number or a word.
    fn take_scalar(&mut self, kept: &Kept, token: Token, want: usize) {
        let first = token.first;
        let number = fault_of(
            want,
            kept,
            token.head,
            token.len,
            token.integer,
            token.magnitude,
        );
        if number == OVER_CAPACITY {
            self.note(number, first, Reason::OverText(bytes_of(want)));
        } else if number != 0 {
            self.note_otherwise(want, first);
        }
        if want == FIELD_NAME {
            self.name_field(first);
        }
        if want == FORMAT_VERSION && number == 0 && self.version == 0 {
            self.version = (token.magnitude % 4) as usize;
        }
        self.go_behind();
    }

    // One element more. One more than there is room for shows that the list, or the refs, are too many.
    fn count_element(&mut self) {
        self.count_one();
        let level = *self.innermost();
        let room = room_of(level.own);
        if room > 0 && level.count > room {
            self.note(OVER_CAPACITY, level.first, Reason::OverList(room));
        }
    }

    fn take_list(&mut self, first: usize, want: usize) {
        let each = item_of(want);
        if each == 0 && !passes_over(want) {
            self.note_otherwise(want, first);
        }
        let own = if each == 0 { 0 } else { want };
        self.open(Opened::List(each), own, first);
        self.expect = Expect::FirstValue;
    }

    fn take_object(&mut self, first: usize, want: usize) {
        let record = record_of(want);
        if named_of(want) != 0 {
            self.open(Opened::Named, want, first);
        } else if record < NO_KIND {
            self.open(Opened::Record(record), want, first);
        } else {
            if !passes_over(want) {
                self.note_otherwise(want, first);
            }
            self.open(Opened::Free, 0, first);
        }
        self.expect = Expect::FirstName;
    }

    // A value begins, or is there whole.
    pub fn take_value(&mut self, kept: &Kept, token: Token) {
        let want = self.wanted();
        if self.innermost().is_list() {
            self.count_element();
        }
        if token.head != b'[' && token.head != b'{' {
            self.take_scalar(kept, token, want);
        } else if self.depth() >= DEEPEST {
            self.note(OVER_CAPACITY, token.first, Reason::Deep);
            self.expect = Expect::Stopped;
        } else if token.head == b'[' {
            self.take_list(token.first, want);
        } else {
            self.take_object(token.first, want);
        }
    }

    // The name of a member. One that is unknown in the file itself is skipped; the value of one that is refused is not judged.
    fn take_member(&mut self, kept: &Kept, token: Token, record: usize) {
        let spot = member(self.version, record, kept, token.len);
        let at = position(record, spot);
        self.pending = 0;
        if spot == 0 {
            if record != THE_FILE {
                self.note(NOT_PUBLISHED, token.first, Reason::Unknown);
            }
        } else if self.innermost().has_seen(at) {
            self.note(NOT_PUBLISHED, token.first, Reason::Repeated);
        } else {
            self.see(at);
            self.pending = want_of(self.version, spot);
        }
    }

    // The name of a ref is a text as the name of a field is.
    fn take_ref_name(&mut self, kept: &Kept, token: Token) {
        let number = fault_of(
            FIELD_NAME,
            kept,
            token.head,
            token.len,
            token.integer,
            token.magnitude,
        );
        if number == OVER_CAPACITY {
            self.note(number, token.first, Reason::OverText(NAME_BYTES));
        } else if number != 0 {
            self.note(number, token.first, Reason::Otherwise(FIELD_NAME));
        }
        self.count_element();
        self.pending = A_REF;
    }

    pub fn take_name(&mut self, kept: &Kept, token: Token) {
        match self.innermost().opened {
            Opened::Record(record) => self.take_member(kept, token, record),
            Opened::Named => self.take_ref_name(kept, token),
            _ => self.pending = 0,
        }
        self.expect = Expect::Colon;
    }

    // Why a record lacks something: the first member that it must have and was not seen, or half a range.
    fn why_lacking(&self, record: usize) -> Reason {
        let first = kind::first_of(record);
        let count = kind::count_of(record);
        for i in 0..count {
            let spot = first.wrapping_add(i);
            if standing(self.version, spot) == REQUIRED && !self.innermost().has_seen(i) {
                return Reason::Missing(spot);
            }
        }
        if record == HELD_SNAPSHOT {
            return Reason::HalfARange;
        }
        Reason::Missing(0)
    }

    // An object is closed: a record may lack a member.
    pub fn take_close(&mut self) {
        let level = *self.innermost();
        if let Opened::Record(record) = level.opened {
            if lacks(self.version, record, &level.seen) {
                let reason = self.why_lacking(record);
                self.note(LACKING, level.first, reason);
            }
        }
    }
}
