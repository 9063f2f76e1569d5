//! How a library begins.
ghost use Rattle.std.specs.Prelude.{◌≡◌, ◌≤◌, ◌∷◌, ◌++◌, [], length, IfOk, IfSome, is_some, option_copied};
ghost use Rattle.lib_index.specs.Archive.{magic, thin_magic};
ghost use Rattle.lib_index.specs.Reading.{Reads, behind, after_magic, has_magic};

use wl_base::LibFault;

/// The bytes behind the magic.
fn behind_magic(bytes: &[u8]) -> Option<&[u8]>
    ensures value { option_copied result ≡ behind magic bytes.now }
    ensures shorter { IfSome result (λ rest. length rest.now ≤ length bytes.now) }
{
    match bytes {
        [b'!', b'<', b'a', b'r', b'c', b'h', b'>', b'\n', rest @ ..] => Some(rest),
        _ => None,
    }
}

/// Whether the bytes begin with the magic of a thin library.
fn is_thin(bytes: &[u8]) -> bool
    ensures { result ≡ is_some (behind thin_magic bytes.now) }
{
    match bytes {
        [b'!', b'<', b't', b'h', b'i', b'n', b'>', ..] => true,
        _ => false,
    }
}

/// Whether the bytes begin with the magic of a thin library and a newline.
fn is_thin_line(bytes: &[u8]) -> bool
    ensures { result ≡ is_some (behind (thin_magic ++ 0x0a ∷ []) bytes.now) }
{
    match bytes {
        [b'!', b'<', b't', b'h', b'i', b'n', b'>', b'\n', ..] => true,
        _ => false,
    }
}

/// Whether a file begins as a library does, with either magic and a newline. Where `read_index`
/// answers that a file is no library, it doesn't.
pub fn has_magic(bytes: &[u8]) -> bool
    ensures { result ≡ has_magic bytes.now }
{
    behind_magic(bytes).is_some() || is_thin_line(bytes)
}

/// The bytes behind the magic, or why there are none.
pub fn after_magic(bytes: &[u8]) -> Result<&[u8], LibFault>
    ensures value { Reads (λ x. x.now) result (after_magic bytes.now) }
    ensures shorter { IfOk result (λ rest. length rest.now ≤ length bytes.now) }
{
    match behind_magic(bytes) {
        Some(rest) => Ok(rest),
        None if is_thin(bytes) => Err(LibFault::Thin),
        None => Err(LibFault::NotLibrary),
    }
}
