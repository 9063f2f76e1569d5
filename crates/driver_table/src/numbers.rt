//! Numbers as drivers write them.
ghost use Rattle.std.specs.Prelude.{◌≡◌, ◌≤◌};
ghost use Rattle.std.specs.List.{list_all};
ghost use Rattle.driver_table.specs.Numbers.{is_digit as is_digit_of, is_decimal as is_decimal_of, amount as amount_of, too_much};

/// More than any option takes.
pub const TOO_MUCH: u64 = (1 << 32) + 1;

fn is_digit(byte: u8) -> bool
    ensures { result ≡ is_digit_of byte }
{
    48 <= byte && byte <= 57
}

fn all_digits(text: &[u8]) -> bool
    ensures { result ≡ list_all is_digit_of text.now }
{
    text.iter().all(|byte| is_digit(*byte))
}

/// Whether a text is a number: decimal digits, at least one.
pub fn is_decimal(text: &str) -> bool
    ensures { result ≡ is_decimal_of text.now }
{
    !text.is_empty() && all_digits(text.as_bytes())
}

/// The number that these digits spell, or `TOO_MUCH` where it is more than any option takes.
pub fn amount(text: &[u8]) -> u64
    ensures value { result ≡ amount_of text.now }
    ensures most { result ≤ too_much }
{
    let mut n: u64 = 0;
    for byte in text {
        n = (n * 10 + u64::from(byte.saturating_sub(48))).min(TOO_MUCH);
    }
    n
}
