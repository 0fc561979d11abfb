// A location that is to be trimmed.
ghost use Rattle.std.specs.Prelude.{◌≡◌, ◌+◌, ◌<◌, ◌^◌};
ghost use Rattle.kept_text.specs.Untrimmed.{length_with};

// The length with one more byte. A slash that has no slot does not count yet, so a length within the slots is still to be trimmed, and
// one beyond them is trimmed.
#[tactic(auto, unfolding(crate::specs::Untrimmed::length_with))]
pub fn length_with(slots: usize, len: usize, at: usize, byte: u8) -> usize
    requires { at + 1 < 2 ^ 64 }
    ensures { result ≡ length_with slots len at byte }
{
    if at < slots {
        return at + 1;
    }
    if byte == b'/' {
        return len;
    }
    at + 1
}
