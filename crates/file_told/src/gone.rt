// A text, gone through lexeme by lexeme up to the first that can not stand where it does.
use crate::course::{Course, Expect};
use crate::judged::NOT_JSON;
use crate::reason::Reason;
use json_lex::text::{KEPT, Kept};
use json_tokens::{END, Token, WHOLE, next};
use json_told::found::Found;

// Whether a lexeme with this first byte is a value, or begins one.
fn is_value(head: u8) -> bool {
    match head {
        b'"' | b'[' | b'{' | b'-' | b't' | b'f' | b'n' | b'0'..=b'9' => true,
        _ => false,
    }
}

impl Course {
    fn stop(&mut self, place: usize, reason: Reason) {
        self.expect = Expect::Stopped;
        self.note(NOT_JSON, place, reason);
    }

    // Whether it closes what is open.
    fn closes(&self, head: u8) -> bool {
        if self.innermost().is_list() {
            return head == b']';
        }
        head == b'}'
    }

    // Whether a lexeme with this first byte may stand there.
    fn may_stand(&self, head: u8) -> bool {
        match self.expect {
            Expect::Value => is_value(head),
            Expect::FirstValue => is_value(head) || head == b']',
            Expect::Name => head == b'"',
            Expect::FirstName => head == b'"' || head == b'}',
            Expect::Colon => head == b':',
            Expect::After => head == b',' || self.closes(head),
            Expect::NothingMore | Expect::Stopped => false,
        }
    }

    // Behind a comma: the next element of a list, or the next name.
    fn take_comma(&mut self) {
        self.expect = if self.innermost().is_list() {
            Expect::Value
        } else {
            Expect::Name
        };
    }

    // A lexeme that may stand there.
    fn take(&mut self, kept: &Kept, token: Token) {
        match token.head {
            b']' | b'}' => {
                self.take_close();
                self.close();
            }
            b',' => self.take_comma(),
            b':' => self.expect = Expect::Value,
            _ => match self.expect {
                Expect::Name | Expect::FirstName => self.take_name(kept, token),
                _ => self.take_value(kept, token),
            },
        }
    }

    // One lexeme more.
    fn step(&mut self, kept: &Kept, token: Token, length: usize) {
        if token.state == END {
            if self.expect == Expect::NothingMore {
                self.expect = Expect::Stopped;
            } else {
                self.stop(length, Reason::Ended);
            }
        } else if !self.may_stand(token.head) {
            self.stop(token.first, Reason::Broken);
        } else if token.state != WHOLE {
            self.stop(token.stop, Reason::Broken);
        } else {
            self.take(kept, token);
        }
    }

    // By the tables of a version. The lexemes are counted: each has a byte at least.
    fn through(text: &[u8], version: usize) -> Course {
        let mut course = Course::by_version(version);
        let mut kept = [0; KEPT];
        let mut at = 0;
        for _ in text {
            if course.expect == Expect::Stopped {
                break;
            }
            let token = next(text, at, &mut kept);
            at = token.after;
            course.step(&kept, token, text.len());
        }
        course
    }
}

// The defects of a text. The version is looked for first, since the tables are those of the version, wherever it stands.
pub fn find(text: &[u8]) -> Found<Reason> {
    let version = Course::through(text, 0).version;
    Course::through(text, version).found
}
