// The text of a limit.
ghost use Rattle.std.specs.Prelude.{◌≡◌, ◌≤◌, length, take};
ghost use Rattle.kept_text.specs.LimitText.{is_spare, is_zero, keep_byte};

// One zero, after a `+` or not.
fn is_zero(text: &[u8]) -> bool
    ensures { result ≡ is_zero text.now }
{
    match text {
        [digit] => *digit == b'0',
        [sign, digit] => *sign == b'+' && *digit == b'0',
        _ => false,
    }
}

// A zero after a first zero changes no number.
#[tactic(auto, unfolding(crate::specs::LimitText::is_spare))]
fn is_spare(text: &[u8], byte: u8) -> bool
    ensures { result ≡ is_spare text.now byte }
{
    byte == b'0' && is_zero(text)
}

// How many bytes are kept, with one more. Where all slots are used, and there are 23 or more, the text has a byte that is no digit, or
// so many digits from the first that is no zero on that its limit is 100, whatever follows.
pub fn keep_byte(text: &mut [u8], len: usize, byte: u8) -> usize
    requires { len ≤ length text.old }
    ensures { (result ≤ length text.new) × (take result text.new ≡ keep_byte (length text.old) (take len text.old) byte) }
{
    if is_spare(&text[..len], byte) {
        return len;
    }
    if len < text.len() {
        text[len] = byte;
        return len + 1;
    }
    len
}
