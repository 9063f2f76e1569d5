//! Names that end at a 0.
ghost use Rattle.std.specs.Prelude.{◌≡◌, ◌<◌, ◌==◌, length, IfSome, position};

use bstr::ByteSlice;

/// The place of the first 0; `None` exactly where there is none.
#[inline]
pub fn first_zero(bytes: &[u8]) -> Option<usize>
    ensures value { result ≡ position (λ b. b == 0) bytes.now }
    ensures within { IfSome result (λ at. at < length bytes.now) }
{
    bytes.find_byte(0)
}
