// A text against a word.
ghost use Rattle.std.specs.Prelude.{◌≡◌, ◌≤◌, length};
ghost use Rattle.rules.specs.Words.{same_bytes};
ghost use Rattle.json_members.specs.Kept.{front};

use json_lex::text::Kept;

// Whether a text is a word. Of a text that is kept whole all bytes are there.
pub fn is_word(kept: &Kept, len: usize, word: &[u8]) -> bool
    requires { length word.now ≤ 97 }
    ensures { result ≡ same_bytes (front len kept.now) word.now }
{
    len == word.len() && &kept[..len] == word
}
