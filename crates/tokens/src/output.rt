// Standard output, a buffer at a time.
ghost use Rattle.std.specs.Prelude.{◌≡◌, ℕ, ◌+◌, ◌-◌, ◌<◌, ◌≤◌, List, [], ◌∷◌, ◌++◌, length, take};
ghost use Rattle.tokens.specs.Writer.{kept};

use std::marker::Model;

const STDOUT: i32 = 1;

const STDERR: i32 = 2;

pub const OUTPUT: usize = 16384;

// The bytes that wait to be written are those of the buffer before the end. Whether it was said that the output could not be written is kept with them.
#[derive(Drop)]
pub struct Output {
    bytes: [u8; OUTPUT],
    end: usize,
    is_unwritten: bool,
}

// A contract sees the bytes that wait.
impl Model for Output {
    ghost Value = { List ℕ };

    ghost view = { λ o. take o.end o.bytes };

    ghost invariant = { λ o. o.end ≤ 16384 };
}

// No number needs more: it has at most 20 digits, or a `-` and 19, and a space follows.
const ROOM: usize = 24;

impl Output {
    pub fn empty() -> Output
        ensures { result ≡ [] }
    {
        Output {
            bytes: [0; OUTPUT],
            end: 0,
            is_unwritten: false,
        }
    }

    pub fn len(&self) -> usize
        ensures { (result ≡ length self.now) × (result ≤ 16384) }
    {
        self.end
    }

    pub fn waiting(&self) -> &[u8]
        ensures { result.now ≡ self.now }
    {
        &self.bytes[..self.end]
    }

    pub fn clear(&mut self)
        ensures { self.new ≡ [] }
    {
        self.end = 0;
    }

    // Said once, whatever else can not be written: nothing is written to standard error from then on.
    fn say_unwritten(&mut self) {
        if !self.is_unwritten {
            io::write_all(STDERR, b"the output could not be written\n");
            self.is_unwritten = true;
        }
    }

    // What waits is written out.
    pub fn flush(&mut self)
        ensures { self.new ≡ [] }
    {
        if !io::write_all(STDOUT, self.waiting()) {
            self.say_unwritten();
        }
        self.clear();
    }

    // To standard error, for what is said beside the answers.
    pub fn flush_aside(&mut self)
        ensures { self.new ≡ [] }
    {
        if !self.is_unwritten {
            io::write_all(STDERR, self.waiting());
        }
        self.clear();
    }

    // Room for a number: where there is less, what waits is written out.
    pub fn make_room(&mut self)
        ensures { (self.new ≡ kept self.old) × (length self.new ≤ 16360) }
    {
        if self.len() > OUTPUT - ROOM {
            self.flush();
        }
    }

    pub fn append(&mut self, bytes: &[u8])
        requires { length self.old + length bytes.now ≤ 16384 }
        ensures { self.new ≡ self.old ++ bytes.now }
    {
        let end = self.end + bytes.len();
        self.bytes[self.end..end].copy_from_slice(bytes);
        self.end = end;
    }

    pub fn push(&mut self, byte: u8)
        requires { length self.old < 16384 }
        ensures { self.new ≡ self.old ++ byte ∷ [] }
    {
        self.bytes[self.end] = byte;
        self.end += 1;
    }

    // The last byte that waits is taken back, where there is one.
    pub fn drop_last(&mut self)
        ensures { self.new ≡ take (length self.old - 1) self.old }
    {
        if self.end > 0 {
            self.end -= 1;
        }
    }

    // The newline takes the place of the space after the last number of a line.
    pub fn end_line(&mut self)
        ensures { length self.new ≡ length self.old }
    {
        if self.end > 0 {
            self.bytes[self.end - 1] = b'\n';
        }
    }
}
