//! Names are UTF-8.
ghost use Rattle.std.specs.Prelude.{◌≡◌};
ghost use Rattle.std.specs.Str.{is_utf8};

use bstr::ByteSlice;

/// Whether the bytes are UTF-8 (the Unicode Standard, Table 3-7).
#[inline]
pub fn is_utf8(text: &[u8]) -> bool
    ensures { result ≡ is_utf8 text.now }
{
    text.is_utf8()
}
