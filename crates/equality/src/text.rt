// Texts compared: all their bytes, and how many of them count.
ghost use Rattle.std.specs.Prelude.{◌≡◌};
ghost use Rattle.rules.specs.Words.{same_bytes};
ghost use Rattle.equality.specs.Same.{same_name, same_text};

use records::text::{Name, Text};

pub fn same_uuid(a: [u8; 16], b: [u8; 16]) -> bool
    ensures { result ≡ same_bytes a b }
{
    a == b
}

// Two names that are laid out are the same exactly if the same is read of them.
#[tactic(auto, using(crate::proofs::Derived::name))]
pub fn same_name(a: Name, b: Name) -> bool
    ensures { result ≡ same_name a b }
{
    a == b
}

#[tactic(auto, using(crate::proofs::Derived::text))]
pub fn same_text(a: Text, b: Text) -> bool
    ensures { result ≡ same_text a b }
{
    a == b
}
