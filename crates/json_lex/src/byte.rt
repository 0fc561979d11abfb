// The bytes that JSON tells apart.
ghost use Rattle.std.specs.Prelude.{◌≡◌};
ghost use Rattle.json_rule.specs.Lexemes.{is_digit};
ghost use Rattle.json_machine.specs.Digest.{hex_of, escaped_of};

#[tactic(auto, unfolding(json_rule::specs::Lexemes::is_digit))]
pub fn is_digit(byte: u8) -> bool
    ensures { result ≡ is_digit byte }
{
    matches!(byte, b'0'..=b'9')
}

// No hexadecimal digit has this value.
// Kept: 16, and of `escaped` 0, where a byte is none: `hex_of` and `escaped_of` of Digest (crate `json_machine`) say these numbers.
pub const NO_HEX: u32 = 16;

// The value of a hexadecimal digit of either case.
#[tactic(auto, unfolding(json_machine::specs::Digest::hex_of, json_rule::specs::Lexemes::is_hex, json_rule::specs::Lexemes::is_digit, json_rule::specs::Values::hex_value))]
pub fn hex_of(byte: u8) -> u32
    ensures { result ≡ hex_of byte }
{
    match byte {
        b'0'..=b'9' => u32::from(byte - b'0'),
        b'A'..=b'F' => u32::from(byte - b'A') + 10,
        b'a'..=b'f' => u32::from(byte - b'a') + 10,
        _ => NO_HEX,
    }
}

// No short escape stands for this byte.
pub const NO_ESCAPE: u8 = 0;

// The byte that a short escape stands for, by the letter after the backslash.
#[tactic(auto, unfolding(json_machine::specs::Digest::escaped_of, json_rule::specs::Lexemes::is_short))]
pub fn escaped(letter: u8) -> u8
    ensures { result ≡ escaped_of letter }
{
    match letter {
        b'"' => b'"',
        b'\\' => b'\\',
        b'/' => b'/',
        b'b' => 8,
        b'f' => 12,
        b'n' => 10,
        b'r' => 13,
        b't' => 9,
        _ => NO_ESCAPE,
    }
}
