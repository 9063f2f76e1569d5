//! Numbers of few bytes, as most entries have them, read without a call.
ghost use Rattle.std.specs.Prelude.{◌≡◌, ◌+◌, ◌%◌, ◌≤◌, ℕ, length, Ok, IfSome};
ghost use Rattle.wasm_grammar.specs.Reading.{u32_at};
ghost use Rattle.reloc_section.specs.Relocs.{reloc_at};
ghost use Rattle.reloc_section.specs.Short.{with_addend};

use crate::kinds::is_read;

/// The low seven bits.
#[inline(always)]
fn seven(byte: u8) -> u32
    ensures { result ≡ byte % 128 }
{
    u32::from(byte & 0x7f)
}

/// The number of at most four bytes at the front, and the bytes after it; `None` for a longer one.
#[inline(always)]
fn short_u32(bytes: &[u8]) -> Option<(u32, &[u8])>
    requires { 4 ≤ length bytes.now }
    ensures value { IfSome result (λ x. (end : ℕ) → u32_at end bytes.now ≡ Ok (x.0, x.1.now)) }
    ensures near { IfSome result (λ x. length bytes.now ≤ length x.1.now + 4) }
{
    let one = seven(bytes[0]);
    if bytes[0] < 0x80 {
        return Some((one, &bytes[1..]));
    }
    let two = one + (seven(bytes[1]) << 7);
    if bytes[1] < 0x80 {
        return Some((two, &bytes[2..]));
    }
    let three = two + (seven(bytes[2]) << 14);
    if bytes[2] < 0x80 {
        return Some((three, &bytes[3..]));
    }
    let four = three + (seven(bytes[3]) << 21);
    if bytes[3] < 0x80 {
        return Some((four, &bytes[4..]));
    }
    None
}

/// The type, the offset and the index at the front of an entry, and the bytes after them; `None`
/// where the type isn't read, a number is long or the end is near.
#[inline(always)]
pub fn short_front(bytes: &[u8]) -> Option<(u8, u32, u32, &[u8])>
    ensures { IfSome result (λ x. (end : ℕ) → reloc_at end bytes.now ≡ with_addend x.0 x.1 x.2 end x.3.now) }
{
    if bytes.len() < 9 {
        return None;
    }
    let kind = bytes[0];
    if !is_read(kind) {
        return None;
    }
    let (offset, rest) = short_u32(&bytes[1..])?;
    let (index, rest) = short_u32(rest)?;
    Some((kind, offset, index, rest))
}
