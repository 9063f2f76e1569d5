//! Reading numbers.
ghost use Rattle.std.specs.Prelude.{◌≡◌, ℕ, ℤ, ◌<◌, ◌≤◌, ◌∷◌, [], ◌++◌, ◌↔◌, List, length, take, IfOk};
ghost use Rattle.leb_codec.specs.Spelling.{greatest_of, EndsOnce, magnitude, signed_value, Spells, IsAtFront, IsShort, IsLong, IsBadTail};
ghost use Rattle.leb_codec.specs.Reading.{end_within, low_bits, valued, number_at};
ghost use Rattle.leb_codec.specs.declared.form.Form.TheVariants.{U32, S32, S33, S64};
ghost use Rattle.leb_codec.specs.declared.fault.LebFault.TheVariants.{Short, Long, BadTail};

use crate::fault::LebFault;
use crate::five::{s32_in_five, small, u32_in_five};
use crate::form::Form;

/// The low bits of the number at the front, joined byte by byte, and how many bytes it takes.
#[inline]
fn joined(bytes: &[u8], greatest: usize) -> Result<(u64, usize), LebFault>
    requires { greatest ≤ 10 }
    ensures value { result ≡ valued low_bits bytes.now (end_within greatest bytes.now) }
    ensures bounds { IfOk result (λ r. (0 < r.1) × (r.1 ≤ greatest) × (r.1 ≤ length bytes.now)) }
{
    let mut bits = 0;
    for (i, byte) in bytes.iter().enumerate() {
        if i == greatest {
            return Err(LebFault::Long);
        }
        bits |= u64::from(*byte & 0x7f) << (7 * i);
        if *byte < 0x80 {
            return Ok((bits, i + 1));
        }
    }
    if bytes.len() < greatest {
        Err(LebFault::Short)
    } else {
        Err(LebFault::Long)
    }
}

/// The low bits of a number of this form at the front, and how many bytes it takes.
#[inline]
#[tactic(auto, unfolding(crate::specs::Reading::number_at, crate::specs::Reading::end_of))]
fn bits_at(form: Form, bytes: &[u8]) -> Result<(u64, usize), LebFault>
    ensures value { result ≡ number_at low_bits form bytes.now }
    ensures bounds { IfOk result (λ r. (0 < r.1) × (r.1 ≤ greatest_of form) × (r.1 ≤ length bytes.now)) }
{
    let (bits, used) = joined(bytes, form.greatest())?;
    if used == form.greatest() && !form.allows(bytes[used - 1]) {
        return Err(LebFault::BadTail);
    }
    Ok((bits, used))
}

/// The number of at most nine bytes that has these bits and the sign of its last byte.
#[inline]
fn with_sign(bits: u64, front: &[u8]) -> i64
    requires ends { EndsOnce front.now }
    requires few { length front.now ≤ 9 }
    requires is { bits ≡ low_bits front.now }
    ensures { result ≡ signed_value front.now }
{
    if front[front.len() - 1] < 0x40 {
        bits as i64
    } else {
        -(((1u64 << (7 * front.len())) - bits) as i64)
    }
}

/// The u32 at the front, of any length.
#[inline(never)]
fn long_u32(bytes: &[u8]) -> Result<(u32, usize), LebFault>
    ensures { result ≡ number_at magnitude U32 bytes.now }
{
    if bytes.len() >= 5 {
        return u32_in_five(bytes);
    }
    let (bits, used) = bits_at(Form::U32, bytes)?;
    Ok((bits as u32, used))
}

/// The u32 at the front. Most take one byte.
#[inline]
fn u32_at(bytes: &[u8]) -> Result<(u32, usize), LebFault>
    ensures { result ≡ number_at magnitude U32 bytes.now }
{
    match bytes {
        [byte, ..] if *byte < 0x80 => Ok((u32::from(*byte), 1)),
        _ => long_u32(bytes),
    }
}

/// The s32 at the front, of any length.
#[inline(never)]
fn long_s32(bytes: &[u8]) -> Result<(i32, usize), LebFault>
    ensures { result ≡ number_at signed_value S32 bytes.now }
{
    if bytes.len() >= 5 {
        return s32_in_five(bytes);
    }
    let (bits, used) = bits_at(Form::S32, bytes)?;
    Ok((with_sign(bits, &bytes[..used]) as i32, used))
}

/// The s32 at the front. Most take one byte.
#[inline]
fn s32_at(bytes: &[u8]) -> Result<(i32, usize), LebFault>
    ensures { result ≡ number_at signed_value S32 bytes.now }
{
    match bytes {
        [byte, ..] if *byte < 0x80 => Ok((small(*byte), 1)),
        _ => long_s32(bytes),
    }
}

/// The s33 at the front, of any length.
#[inline(never)]
fn long_s33(bytes: &[u8]) -> Result<(i64, usize), LebFault>
    ensures { result ≡ number_at signed_value S33 bytes.now }
{
    let (bits, used) = bits_at(Form::S33, bytes)?;
    Ok((with_sign(bits, &bytes[..used]), used))
}

/// The s33 at the front. Most take one byte.
#[inline]
fn s33_at(bytes: &[u8]) -> Result<(i64, usize), LebFault>
    ensures { result ≡ number_at signed_value S33 bytes.now }
{
    match bytes {
        [byte, ..] if *byte < 0x80 => Ok((i64::from(small(*byte)), 1)),
        _ => long_s33(bytes),
    }
}

/// The s64 at the front, of any length.
#[inline(never)]
fn long_s64(bytes: &[u8]) -> Result<(i64, usize), LebFault>
    ensures { result ≡ number_at signed_value S64 bytes.now }
{
    let (bits, used) = bits_at(Form::S64, bytes)?;
    // A number of ten bytes fills the 64 bits.
    let value = if used < 10 {
        with_sign(bits, &bytes[..used])
    } else {
        bits.cast_signed()
    };
    Ok((value, used))
}

/// The s64 at the front. Most take one byte.
#[inline]
fn s64_at(bytes: &[u8]) -> Result<(i64, usize), LebFault>
    ensures { result ≡ number_at signed_value S64 bytes.now }
{
    match bytes {
        [byte, ..] if *byte < 0x80 => Ok((i64::from(small(*byte)), 1)),
        _ => long_s64(bytes),
    }
}

/// The u32 at the front of the bytes, and how many bytes it takes. An error tells why there is none.
///
/// Core Specification, "Binary Format, Values, Integers".
#[inline]
pub fn read_u32(bytes: &[u8]) -> Result<(u32, usize), LebFault>
    // What is read is spelled so.
    ensures found { IfOk result (IsAtFront magnitude U32 bytes.now) }
    // What is spelled so is read, whatever follows.
    ensures only { (spelling rest : List ℕ) (n : ℕ) → Spells magnitude U32 spelling n
        → bytes.now ≡ spelling ++ rest → result ≡ Ok (n, length spelling) }
    ensures short { (result ≡ Err Short) ↔ IsShort U32 bytes.now }
    ensures long { (result ≡ Err Long) ↔ IsLong U32 bytes.now }
    ensures bad_tail { (result ≡ Err BadTail) ↔ IsBadTail U32 bytes.now }
    // The same as one function of the bytes.
    ensures exact { result ≡ number_at magnitude U32 bytes.now }
{
    u32_at(bytes)
}

/// The s32 at the front of the bytes, and how many bytes it takes. An error tells why there is none.
///
/// Core Specification, "Binary Format, Values, Integers".
#[inline]
pub fn read_s32(bytes: &[u8]) -> Result<(i32, usize), LebFault>
    // What is read is spelled so.
    ensures found { IfOk result (IsAtFront signed_value S32 bytes.now) }
    // What is spelled so is read, whatever follows.
    ensures only { (spelling rest : List ℕ) (n : ℤ) → Spells signed_value S32 spelling n
        → bytes.now ≡ spelling ++ rest → result ≡ Ok (n, length spelling) }
    ensures short { (result ≡ Err Short) ↔ IsShort S32 bytes.now }
    ensures long { (result ≡ Err Long) ↔ IsLong S32 bytes.now }
    ensures bad_tail { (result ≡ Err BadTail) ↔ IsBadTail S32 bytes.now }
    // The same as one function of the bytes.
    ensures exact { result ≡ number_at signed_value S32 bytes.now }
{
    s32_at(bytes)
}

/// The s33 at the front of the bytes, and how many bytes it takes. An error tells why there is none.
///
/// Core Specification, "Binary Format, Values, Integers".
#[inline]
pub fn read_s33(bytes: &[u8]) -> Result<(i64, usize), LebFault>
    // What is read is spelled so.
    ensures found { IfOk result (IsAtFront signed_value S33 bytes.now) }
    // What is spelled so is read, whatever follows.
    ensures only { (spelling rest : List ℕ) (n : ℤ) → Spells signed_value S33 spelling n
        → bytes.now ≡ spelling ++ rest → result ≡ Ok (n, length spelling) }
    ensures short { (result ≡ Err Short) ↔ IsShort S33 bytes.now }
    ensures long { (result ≡ Err Long) ↔ IsLong S33 bytes.now }
    ensures bad_tail { (result ≡ Err BadTail) ↔ IsBadTail S33 bytes.now }
    // The same as one function of the bytes.
    ensures exact { result ≡ number_at signed_value S33 bytes.now }
{
    s33_at(bytes)
}

/// The s64 at the front of the bytes, and how many bytes it takes. An error tells why there is none.
///
/// Core Specification, "Binary Format, Values, Integers".
#[inline]
pub fn read_s64(bytes: &[u8]) -> Result<(i64, usize), LebFault>
    // What is read is spelled so.
    ensures found { IfOk result (IsAtFront signed_value S64 bytes.now) }
    // What is spelled so is read, whatever follows.
    ensures only { (spelling rest : List ℕ) (n : ℤ) → Spells signed_value S64 spelling n
        → bytes.now ≡ spelling ++ rest → result ≡ Ok (n, length spelling) }
    ensures short { (result ≡ Err Short) ↔ IsShort S64 bytes.now }
    ensures long { (result ≡ Err Long) ↔ IsLong S64 bytes.now }
    ensures bad_tail { (result ≡ Err BadTail) ↔ IsBadTail S64 bytes.now }
    // The same as one function of the bytes.
    ensures exact { result ≡ number_at signed_value S64 bytes.now }
{
    s64_at(bytes)
}
