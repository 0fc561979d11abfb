// An input, a buffer at a time: bytes that reads of a file fill, or that are a whole text, and the reader's place in them.
ghost use Rattle.std.specs.Prelude.{◌≤◌};

use crate::source::Source;
use crate::wanted::{Fault, Found, Wanted};

pub const INPUT: usize = 16384;

#[derive(Clone, Copy, PartialEq, Eq, Debug)]
enum State {
    Reading,
    Ended,
    // Nothing is read from here on: the input could not be read, or holds what is not wanted.
    Failed,
    Bad(Wanted),
}

// Where it is read, in which state, and at which number of which piece (a run, a question, a case) the reader is. At the first fault all but what is said
// of the buffer stays as it is, so that the fault can be told. Nothing bounds the counts, so they are added modulo 2^64.
#[derive(Drop)]
pub struct Input {
    bytes: [u8; INPUT],
    source: Source,
    state: State,
    // The next byte of the buffer, how many of them are filled, and how many bytes stood before those of the buffer.
    at: usize,
    filled: usize,
    before: usize,
    // The piece, counted from 1; 0 where the input is one.
    piece: usize,
    // The number of the piece, counted from 1.
    number: usize,
    // The byte with which that number begins, counted from 1; none before it does.
    begun: Option<usize>,
    // The first byte of it that stands in no number.
    odd: Option<u8>,
    ghost within: { filled ≤ 16384 },
}

impl Input {
    // The beginning of what is open for reading. It is closed where the input is let go.
    pub fn new(source: Source) -> Input {
        Input {
            bytes: [0; INPUT],
            source,
            state: State::Reading,
            at: 0,
            filled: 0,
            before: 0,
            piece: 0,
            number: 0,
            begun: None,
            odd: None,
        }
    }

    // The beginning again, of what is open there already and was not read.
    pub fn restart(&mut self) {
        self.state = State::Reading;
        self.at = 0;
        self.filled = 0;
        self.before = 0;
        self.piece = 0;
        self.number = 0;
        self.begun = None;
        self.odd = None;
    }

    // The beginning of something else. What was read so far is closed.
    pub fn turn_to(&mut self, source: Source) {
        self.source = source;
        self.restart();
    }

    // What was read there is closed, and nothing is read from then on.
    pub fn close(&mut self) {
        self.source = Source::Nothing;
    }

    // A text in the place of a file: this byte after those that are held already. What has no room is left out.
    fn hold(&mut self, byte: u8) {
        self.state = State::Ended;
        if self.filled < INPUT {
            self.bytes[self.filled] = byte;
            self.filled += 1;
        }
    }

    // One of many lines, counted from 0, without its end.
    pub fn hold_line(&mut self, lines: &[u8], line: usize) {
        let mut passed = 0;
        for byte in lines {
            if *byte == b'\n' {
                passed += 1;
            } else if passed == line {
                self.hold(*byte);
            }
        }
    }

    pub fn is_good(&self) -> bool {
        matches!(self.state, State::Reading | State::Ended)
    }

    // What was wanted of the number that was read last. The first fault stays.
    pub fn spoil(&mut self, wanted: Wanted) {
        if self.is_good() {
            self.state = State::Bad(wanted);
        }
    }

    // Whether every byte that was read so far is used: the next one may have to be waited for.
    pub fn is_used_up(&self) -> bool {
        self.at >= self.filled
    }

    pub fn begin_piece(&mut self) {
        self.piece = self.piece.wrapping_add(1);
        self.number = 0;
    }

    pub fn begin_number(&mut self) {
        if self.is_good() {
            self.number = self.number.wrapping_add(1);
            self.begun = None;
            self.odd = None;
        }
    }

    // The byte that was read last is one of the number.
    pub fn note(&mut self, byte: u8, is_odd: bool) {
        if self.begun.is_none() {
            self.begun = Some(self.before.wrapping_add(self.at));
        }
        if is_odd && self.odd.is_none() {
            self.odd = Some(byte);
        }
    }

    // Which piece is read, counted from 1.
    pub fn piece(&self) -> usize {
        self.piece
    }

    // Whether nothing stands before the number that was read last.
    pub fn is_first(&self) -> bool {
        self.piece <= 1 && self.number <= 1
    }

    fn found(&self) -> Found {
        if self.state == State::Failed {
            return Found::Nothing;
        }
        if self.begun.is_none() {
            return Found::End;
        }
        match self.odd {
            None => Found::Number,
            Some(byte) => Found::Byte(byte),
        }
    }

    // The byte with which the number begins; where there is none, the one after the last.
    fn byte(&self) -> usize {
        match self.begun {
            Some(byte) => byte,
            None => self.before.wrapping_add(self.at).wrapping_add(1),
        }
    }

    pub fn fault(&self) -> Fault {
        let wanted = match self.state {
            State::Bad(wanted) => Some(wanted),
            _ => None,
        };
        Fault {
            piece: self.piece,
            number: self.number,
            byte: self.byte(),
            wanted,
            found: self.found(),
        }
    }

    fn refill(&mut self) {
        let got = self.source.read(&mut self.bytes);
        self.before = self.before.wrapping_add(self.filled);
        self.at = 0;
        self.filled = 0;
        match got {
            Err(_) => self.state = State::Failed,
            Ok(0) => self.state = State::Ended,
            Ok(count) => self.filled = count,
        }
    }

    // None at the end, and where the input is bad.
    pub fn next_byte(&mut self) -> Option<u8> {
        if self.state == State::Reading && self.is_used_up() {
            self.refill();
        }
        if !self.is_good() || self.at >= self.filled {
            return None;
        }
        let byte = self.bytes[self.at];
        self.at += 1;
        Some(byte)
    }
}
