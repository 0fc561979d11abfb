// The spaces before a lexeme.
ghost use Rattle.std.specs.Prelude.{◌≡◌, ◌+◌, drop};
ghost use Rattle.json_rule.specs.Lexemes.{is_space};
ghost use Rattle.json_tokens.specs.Outcomes.{space_run};

#[tactic(auto, unfolding(json_rule::specs::Lexemes::is_space))]
fn is_space(byte: u8) -> bool
    ensures { result ≡ is_space byte }
{
    matches!(byte, b' ' | b'\t' | b'\n' | b'\r')
}

// The bytes from a place on; none behind the end.
pub fn bytes_from(bytes: &[u8], from: usize) -> &[u8]
    ensures { result.now ≡ drop from bytes.now }
{
    bytes.get(from..).unwrap_or(&[])
}

// The first place from this one on at which no space stands, or the end.
pub fn past_spaces(bytes: &[u8], from: usize) -> usize
    ensures { result ≡ from + space_run (drop from bytes.now) }
{
    let rest = bytes_from(bytes, from);
    for (i, byte) in rest.iter().enumerate() {
        if !is_space(*byte) {
            return from + i;
        }
    }
    from + rest.len()
}
