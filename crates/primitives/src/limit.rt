// The limit of the metadata log, from the text of its property.
ghost use Rattle.std.specs.Prelude.{◌≡◌, ◌+◌, ◌*◌, ◌<◌, ◌≤◌, MatchOption};
ghost use Rattle.rules.specs.Capacities.{largest_unsigned};
ghost use Rattle.rules.specs.Limit.{after_plus, is_digit, limit_of};
ghost use Rattle.primitives.specs.Limit.{digits_limit};

const DEFAULT_LIMIT: u64 = 100;

fn is_digit(byte: u8) -> bool
    ensures { result ≡ is_digit byte }
{
    byte.is_ascii_digit()
}

// The number with one more digit, if it is at most 2^64 - 1.
fn with_digit(number: u64, digit: u8) -> Option<u64>
    requires { digit < 10 }
    ensures { MatchOption result (largest_unsigned < number * 10 + digit) (λ more. (more ≡ number * 10 + digit) × (more ≤ largest_unsigned)) }
{
    number.checked_mul(10)?.checked_add(u64::from(digit))
}

// The limit that digits write. Zeros in front leave the number at 0, however many there are.
#[tactic(auto, using(crate::proofs::Digits::no_digits, crate::proofs::Digits::at_first, crate::proofs::Digits::at_last, crate::proofs::Digits::not_digit, crate::proofs::Digits::one_digit, crate::proofs::Digits::too_large_lem))]
fn digits_limit(digits: &[u8]) -> u64
    ensures { result ≡ digits_limit digits.now }
{
    if digits.is_empty() {
        return DEFAULT_LIMIT;
    }
    let mut number: u64 = 0;
    for byte in digits {
        if !is_digit(*byte) {
            return DEFAULT_LIMIT;
        }
        match with_digit(number, *byte - b'0') {
            Some(more) => number = more,
            None => return DEFAULT_LIMIT,
        }
    }
    number.max(1)
}

fn after_plus(text: &[u8]) -> &[u8]
    ensures { result.now ≡ after_plus text.now }
{
    match text {
        [b'+', rest @ ..] => rest,
        _ => text,
    }
}

#[tactic(auto, unfolding(crate::specs::Limit::digits_limit, rules::specs::Limit::limit_of))]
pub fn limit(text: &[u8]) -> u64
    ensures { result ≡ limit_of text.now }
{
    digits_limit(after_plus(text))
}
