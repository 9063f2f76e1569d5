//! Numbers as words spell them.
ghost use Rattle.std.specs.Prelude.{◌≡◌, ◌≤◌, ◌<◌, ◌^◌, IfSome};
ghost use Rattle.link_words.specs.Numbers.{digit_of, number_in, some_digits, up_to, IsIn};

use crate::range::Range;

/// The number of the range that a word spells.
pub fn number(range: Range, word: &[u8]) -> Option<u64>
    ensures number { result ≡ number_in range word.now }
    ensures sound { IfSome result (IsIn range) }
{
    let n = match word {
        [b'0', b'x', digits @ ..] => spelled(digits, 16)?,
        [b'0', _, ..] => return None,
        digits => spelled(digits, 10)?,
    };
    if range.has(n) { Some(n) } else { None }
}

// The number that digits spell, up to the greatest that any range has.
fn spelled(digits: &[u8], base: u64) -> Option<u64>
    requires base_least { 0 < base }
    requires base_most { base ≤ 16 }
    ensures number { result ≡ up_to (2 ^ 32) (some_digits base digits.now) }
    ensures most { IfSome result (λ n. n ≤ 2 ^ 32) }
{
    if digits.is_empty() {
        return None;
    }
    let mut value = 0;
    for byte in digits {
        let digit = digit_at(*byte);
        if digit >= base {
            return None;
        }
        value = value * base + digit;
        if value > 1 << 32 {
            return None;
        }
    }
    Some(value)
}

// The value of a digit, which is 16 where the byte is none.
fn digit_at(byte: u8) -> u64
    ensures { result ≡ digit_of byte }
{
    match byte {
        b'0'..=b'9' => u64::from(byte - b'0'),
        b'a'..=b'f' => u64::from(byte - b'a') + 10,
        b'A'..=b'F' => u64::from(byte - b'A') + 10,
        _ => 16,
    }
}
