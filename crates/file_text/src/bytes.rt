// Bytes as they are.
ghost use Rattle.std.specs.Prelude.{cond, [], ◌∷◌};
ghost use Rattle.file_text.specs.Puts.{Puts, only_if};

pub fn put(buffer: &mut [u8], at: usize, bytes: &[u8]) -> usize
    ensures { Puts buffer.old at bytes.now result buffer.new }
{
    if let Some(end) = at.checked_add(bytes.len()) {
        if end <= buffer.len() {
            buffer[at..end].copy_from_slice(bytes);
        }
        return end;
    }
    usize::MAX
}

pub fn put_byte(buffer: &mut [u8], at: usize, byte: u8) -> usize
    ensures { Puts buffer.old at (byte ∷ []) result buffer.new }
{
    if at < buffer.len() {
        buffer[at] = byte;
        return at + 1;
    }
    at.saturating_add(1)
}

pub fn put_if(buffer: &mut [u8], at: usize, wanted: bool, bytes: &[u8]) -> usize
    ensures { Puts buffer.old at (only_if wanted bytes.now) result buffer.new }
{
    if wanted {
        return put(buffer, at, bytes);
    }
    at
}

pub fn put_either(buffer: &mut [u8], at: usize, first: bool, bytes: &[u8], others: &[u8]) -> usize
    ensures { Puts buffer.old at (cond first bytes.now others.now) result buffer.new }
{
    put(buffer, at, if first { bytes } else { others })
}
