//! Values: a type, a colon, and the pattern of bits as a number.
ghost use Rattle.std.specs.Prelude.{◌≡◌, option_map};
ghost use Rattle.run_script.specs.Said.{value_in};
ghost use Rattle.run_script.specs.Numbers.{number_to};

use crate::numbers::number;
use run_rules::Value;

/// The greatest pattern of 32 bits.
pub const MOST_WORD: u64 = 4_294_967_295;

// The number of at most 32 bits that digits spell.
fn word32(digits: &[u8]) -> Option<u32>
    ensures { result ≡ number_to 4294967295 digits.now }
{
    match number(MOST_WORD, digits) {
        None => None,
        Some(n) => Some(n as u32),
    }
}

/// The value that a word says.
pub fn value(word: &[u8]) -> Option<Value>
    ensures { result ≡ value_in word.now }
{
    match word {
        [b'i', b'3', b'2', b':', digits @ ..] => Some(Value::I32(word32(digits)?)),
        [b'i', b'6', b'4', b':', digits @ ..] => Some(Value::I64(number(u64::MAX, digits)?)),
        [b'f', b'3', b'2', b':', digits @ ..] => Some(Value::F32(word32(digits)?)),
        [b'f', b'6', b'4', b':', digits @ ..] => Some(Value::F64(number(u64::MAX, digits)?)),
        _ => None,
    }
}
