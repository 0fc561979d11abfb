// Locations without their trailing slashes.
ghost use Rattle.std.specs.Prelude.{◌≡◌};
ghost use Rattle.rules.specs.Names.{trimmed};

// The caller's bytes up to the last that is not a slash.
pub fn trim(location: &[u8]) -> &[u8]
    ensures bytes { result.now ≡ trimmed location.now }
    ensures place { result.ref_ptr ≡ location.entry.ref_ptr }
{
    let mut n = location.len();
    while n > 0 {
        if location[n - 1] != b'/' {
            return &location[..n];
        }
        n -= 1;
    }
    &location[..n]
}
