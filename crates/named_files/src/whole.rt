// The whole of a file in lent slots.
ghost use Rattle.std.specs.Prelude.{◌≤◌, length};

use std::rt::HostRuntime;
use tokens::source::Source;

// The longest file that is read. What is exported here has at most 339,202 bytes.
pub const LONGEST: usize = 393216;

// One slot more, so that a longer file is seen to be longer.
pub const ROOM: usize = LONGEST + 1;

// Why a file is not read.
#[derive(Clone, Copy, PartialEq, Eq, Debug)]
pub enum Unread {
    NotOpened,
    NotRead,
    TooLong,
}

// Why no more comes: the file is at its end, or could not be read on.
fn read_end(source: &mut Source, length: usize) -> Result<(), Unread> {
    if length > LONGEST {
        return Err(Unread::TooLong);
    }
    match source.read(&mut [0u8; 1]) {
        Ok(_) => Ok(()),
        Err(_) => Err(Unread::NotRead),
    }
}

// Reads until the slots are full, the file ends or a read fails: how many bytes there are then.
fn fill(source: &mut Source, text: &mut [u8]) -> usize
    ensures { result ≤ length text.new }
{
    let mut done = 0;
    // Kept: what a read gives decides how far the next turn begins, so there is no index to count.
    while done < text.len() {
        let count = source.read(&mut text[done..]).unwrap_or(0);
        if count == 0 {
            return done;
        }
        done += count;
    }
    done
}

// The bytes of the file, which stand at the start of the slots.
pub fn read_whole<'a>(
    rt: HostRuntime,
    name: &[u8],
    text: &'a mut [u8],
) -> Result<&'a [u8], Unread> {
    let mut source = Source::open(rt, name);
    if !source.is_open() {
        return Err(Unread::NotOpened);
    }
    let length = fill(&mut source, text);
    read_end(&mut source, length)?;
    Ok(&text[..length])
}
