// Texts as records. Of each the bytes that count are lent, and what is made of them is laid out anew.
ghost use Rattle.std.specs.Prelude.{◌≡◌, ◌≤◌, length};
ghost use Rattle.rules.specs.Words.{same_bytes};
ghost use Rattle.rules.specs.Names.{trimmed as trimmedBytes};
ghost use Rattle.rules.specs.Capacities.{text_room};
ghost use Rattle.rules.specs.Layout.{read_text, laid_text};

use primitives::location::trim;
use primitives::names::same_bytes;
use records::text::Text;

// Kept: tried, `copy_from_slice` into the array's front, after which nothing is known of the array.
fn text_of(bytes: &[u8]) -> Text
    requires { length bytes.now ≤ text_room }
    ensures { result ≡ laid_text bytes.now }
{
    let mut text = Text::blank();
    for (i, byte) in bytes.iter().enumerate() {
        text.bytes[i] = *byte;
    }
    text.len = bytes.len();
    text
}

// A text as it is held: blank past its length.
pub fn clean(text: Text) -> Text
    requires { text.len ≤ text_room }
    ensures { result ≡ laid_text (read_text text) }
{
    text_of(&text.bytes[..text.len])
}

// A location without its trailing slashes.
pub fn trimmed(text: Text) -> Text
    requires { text.len ≤ text_room }
    ensures { result ≡ laid_text (trimmedBytes (read_text text)) }
{
    text_of(trim(&text.bytes[..text.len]))
}

pub fn same_text(a: Text, b: Text) -> bool
    requires len_le_text_room { a.len ≤ text_room }
    requires len_le_text_room_2 { b.len ≤ text_room }
    ensures { result ≡ same_bytes (read_text a) (read_text b) }
{
    same_bytes(&a.bytes[..a.len], &b.bytes[..b.len])
}
