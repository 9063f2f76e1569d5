//! Numbers: decimal digits, with no sign and no needless zero in front.
ghost use Rattle.std.specs.Prelude.{◌≡◌, ◌≤◌, IfSome};
ghost use Rattle.run_script.specs.Numbers.{digit_of, digits_to, number_to};

/// The number that a word spells, where it is at most so much.
pub fn number(most: u64, word: &[u8]) -> Option<u64>
    ensures is { result ≡ number_to most word.now }
    ensures small { IfSome result (λ n. n ≤ most) }
{
    match word {
        [] => None,
        [b'0', _, ..] => None,
        digits => spelled(most, digits),
    }
}

// The number that digits spell, where it is at most so much.
fn spelled(most: u64, digits: &[u8]) -> Option<u64>
    ensures is { result ≡ digits_to most 0 digits.now }
    ensures small { IfSome result (λ n. n ≤ most) }
{
    let limit = u128::from(most);
    let mut value = 0u128;
    for byte in digits {
        let digit = digit_at(*byte);
        if digit >= 10 {
            return None;
        }
        value = value * 10 + digit;
        if value > limit {
            return None;
        }
    }
    Some(value as u64)
}

// The value of a digit, which is 10 where the byte is none.
fn digit_at(byte: u8) -> u128
    ensures { result ≡ digit_of byte }
{
    match byte {
        b'0'..=b'9' => u128::from(byte - b'0'),
        _ => 10,
    }
}
