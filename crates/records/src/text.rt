// Names, locations and paths: bytes and how many of them count. The rest are 0.
ghost use Rattle.std.specs.Prelude.{◌≡◌};
ghost use Rattle.records.specs.Blanks.{no_name, no_text};

use crate::capacities::{NAME, TEXT};

#[derive(Clone, Copy, PartialEq, Eq)]
pub struct Name {
    pub bytes: [u8; NAME],
    pub len: usize,
}

// A location, the name of a metadata file, or the path of a statistics file.
#[derive(Clone, Copy, PartialEq, Eq)]
pub struct Text {
    pub bytes: [u8; TEXT],
    pub len: usize,
}

impl Name {
    pub fn blank() -> Name
        ensures { result ≡ no_name }
    {
        Name {
            bytes: [0; NAME],
            len: 0,
        }
    }
}

impl Text {
    pub fn blank() -> Text
        ensures { result ≡ no_text }
    {
        Text {
            bytes: [0; TEXT],
            len: 0,
        }
    }
}
