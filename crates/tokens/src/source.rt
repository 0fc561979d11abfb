// Where bytes are read from: standard input, a file that is open, or nothing. A file is closed where its source is let go.
ghost use Rattle.std.specs.Prelude.{◌≤◌, IfOk, length};

use std::fs::File;
use std::io::Read;
use std::rt::{HostRuntime, Stdin};
use std::str::from_utf8;

#[derive(Drop)]
pub enum Source {
    // No file is open there, and none can be read.
    Nothing,
    Standard(Stdin),
    Opened(File),
}

// A read failed.
#[derive(Clone, Copy, PartialEq, Eq, Debug)]
pub struct Unread;

impl Source {
    pub fn standard(rt: HostRuntime) -> Source {
        Source::Standard(rt.stdin())
    }

    // A file by its name; nothing where it can not be opened for reading. The system's library takes names that are UTF-8 alone.
    pub fn open(rt: HostRuntime, name: &[u8]) -> Source {
        let Ok(path) = from_utf8(name) else {
            return Source::Nothing;
        };
        match File::open(&rt, path) {
            Ok(file) => Source::Opened(file),
            Err(_) => Source::Nothing,
        }
    }

    pub fn is_open(&self) -> bool {
        !matches!(self, Source::Nothing)
    }

    pub fn is_standard(&self) -> bool {
        matches!(self, Source::Standard(_))
    }

    // How many bytes were put at the start of the slots: none at the end.
    pub fn read(&mut self, bytes: &mut [u8]) -> Result<usize, Unread>
        ensures { IfOk result (λ n. n ≤ length bytes.new) }
    {
        let got = match self {
            Source::Nothing => return Err(Unread),
            Source::Standard(stdin) => stdin.read(bytes),
            Source::Opened(file) => file.read(bytes),
        };
        match got {
            Ok(count) => Ok(count),
            Err(_) => Err(Unread),
        }
    }
}
