//! Names, byte by byte as they are printed: each name has one spelling alone.
ghost use Rattle.std.specs.Prelude.{◌≡◌, ◌<◌, [], true, IfOk, IfSome, Some, None, option_map};
ghost use Rattle.run_script.specs.Said.{hex_of, is_shown, name_step, second_digit, is_whole, name_in, name_onto, goes, small_within};

use std::alloc::Global;
use wl_base::{Name, OutOfMemory, Seq};

/// Where in the spelling of a byte a word stands.
#[derive(Clone, Copy, Debug)]
pub enum Within {
    /// Between two bytes.
    Between,
    /// Behind a backslash.
    Slash,
    /// Behind a backslash and an x.
    Digits,
    /// Behind these and a digit of this value.
    Digit(u8),
}

/// The value of a hexadecimal digit, of which the letters are upper.
pub fn hex(byte: u8) -> Option<u8>
    ensures is { result ≡ hex_of byte }
    ensures small { IfSome result (λ n. n < 16) }
{
    match byte {
        b'0'..=b'9' => Some(byte - b'0'),
        b'A'..=b'F' => Some(byte - b'A' + 10),
        _ => None,
    }
}

// Whether a byte is printed as itself.
fn is_shown(byte: u8) -> bool
    ensures { result ≡ is_shown byte }
{
    byte >= b'!' && byte <= b'~' && byte != b'\\'
}

// What a byte of a word adds to a name.
#[derive(Clone, Copy)]
struct Step {
    byte: Option<u8>,
    next: Within,
}

// What the byte of two digits adds: one that is printed as itself isn't spelled so.
fn second_digit(n: u8) -> Option<Step>
    ensures { option_map (λ s. record { byte = s.byte; next = s.next }) result ≡ second_digit n }
{
    if is_shown(n) {
        None
    } else {
        Some(Step {
            byte: Some(n),
            next: Within::Between,
        })
    }
}

// What a byte of a word adds, and where it leads.
fn name_step(at: Within, byte: u8) -> Option<Step>
    requires { small_within at ≡ true }
    ensures is { option_map (λ s. record { byte = s.byte; next = s.next }) result ≡ name_step at byte }
    ensures small { IfSome result (λ s. small_within s.next ≡ true) }
{
    match at {
        Within::Between => {
            if byte == b'\\' {
                Some(Step {
                    byte: None,
                    next: Within::Slash,
                })
            } else if is_shown(byte) {
                Some(Step {
                    byte: Some(byte),
                    next: Within::Between,
                })
            } else {
                None
            }
        }
        Within::Slash => {
            if byte == b'x' {
                Some(Step {
                    byte: None,
                    next: Within::Digits,
                })
            } else {
                None
            }
        }
        Within::Digits => Some(Step {
            byte: None,
            next: Within::Digit(hex(byte)?),
        }),
        Within::Digit(high) => second_digit(16 * high + hex(byte)?),
    }
}

// The name that a word of at least one byte is printed of.
fn name_onto(alloc: Global, word: &[u8]) -> Result<Option<Name>, OutOfMemory>
    ensures { IfOk result (λ name. name ≡ name_onto [] Within.Between word.now) }
{
    let mut name = Seq::new(alloc);
    let mut at = Within::Between;
    for byte in word {
        let Some(step) = name_step(at, *byte) else {
            return Ok(None);
        };
        if let Some(byte) = step.byte {
            name.push(byte)?;
        }
        at = step.next;
    }
    match at {
        Within::Between => Ok(Some(name)),
        _ => Ok(None),
    }
}

/// The name that a word is printed of; the empty one is `\e`.
///
/// # Errors
/// Want of memory.
pub fn name(alloc: Global, word: &[u8]) -> Result<Option<Name>, OutOfMemory>
    ensures { IfOk result (λ name. name ≡ name_in word.now) }
{
    match word {
        [b'\\', b'e'] => Ok(Some(Seq::new(alloc))),
        [] => Ok(None),
        _ => name_onto(alloc, word),
    }
}
