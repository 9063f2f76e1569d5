//! The header of a member.
ghost use Rattle.std.specs.Prelude.{◌≡◌, ◌≤◌, ◌<◌, ◌==◌, length, take, All, IsTrue};
ghost use Rattle.std.specs.List.{list_all, prefix_len};
ghost use Rattle.std.specs.Char.{is_ascii_digit};
ghost use Rattle.lib_index.specs.Archive.{IsDigit, decimal};
ghost use Rattle.lib_index.specs.Reading.{number_in, has_header};

/// How many digits stand at the front.
fn count_digits(field: &[u8]) -> usize
    ensures { result ≡ prefix_len is_ascii_digit field.now }
{
    field.iter().take_while(|b| b.is_ascii_digit()).count()
}

/// The same, which is a part of the field, and of digits alone.
fn digits_in(field: &[u8]) -> usize
    ensures value { result ≡ prefix_len is_ascii_digit field.now }
    ensures within { result ≤ length field.now }
    ensures digits { All IsDigit (take result field.now) }
{
    count_digits(field)
}

/// Whether there are only spaces.
fn are_spaces(field: &[u8]) -> bool
    ensures { result ≡ list_all (λ b. b == 32) field.now }
{
    field.iter().all(|b| *b == b' ')
}

/// The number that the digits write.
fn decimal(digits: &[u8]) -> u64
    requires few { length digits.now ≤ 10 }
    requires digits { All IsDigit digits.now }
    ensures { result ≡ decimal digits.now }
{
    let mut number = 0;
    for digit in digits {
        number = 10 * number + u64::from(*digit - b'0');
    }
    number
}

/// The number in a field: decimal digits, one at least, and then spaces alone.
#[tactic(auto, unfolding(crate::specs::Reading::number_in))]
pub fn number_in(field: &[u8]) -> Option<u64>
    requires { length field.now ≤ 10 }
    ensures { result ≡ number_in field.now }
{
    let digits = digits_in(field);
    if digits > 0 && are_spaces(&field[digits..]) {
        Some(decimal(&field[..digits]))
    } else {
        None
    }
}

/// Whether 60 bytes are there, of which the last are 60 0A.
pub fn has_header(bytes: &[u8]) -> bool
    ensures value { result ≡ has_header bytes.now }
    ensures long { IsTrue result → 60 ≤ length bytes.now }
{
    bytes.len() > 59 && &bytes[58..][..2] == [0x60, 0x0a].as_slice()
}
