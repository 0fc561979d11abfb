// Names, byte by byte.
ghost use Rattle.std.specs.Prelude.{◌≡◌};
ghost use Rattle.rules.specs.Words.{same_bytes};
ghost use Rattle.rules.specs.Names.{is_main, name_below};

pub fn same_bytes(a: &[u8], b: &[u8]) -> bool
    ensures { result ≡ same_bytes a.now b.now }
{
    a == b
}

// Byte order, a prefix first.
#[tactic(auto, using(crate::proofs::Bytes::below_on, crate::proofs::Bytes::below_here, crate::proofs::Bytes::below_end, crate::proofs::Bytes::below_prefix))]
pub fn name_below(a: &[u8], b: &[u8]) -> bool
    ensures { result ≡ name_below a.now b.now }
{
    for (x, y) in a.iter().zip(b) {
        if *x != *y {
            return *x < *y;
        }
    }
    a.len() < b.len()
}

pub fn is_main(name: &[u8]) -> bool
    ensures { result ≡ is_main name.now }
{
    same_bytes(name, b"main")
}
