//! Numbers at the front of five bytes or more, without a loop: relocated numbers are padded to
//! five, so most long numbers of an object are read here.
ghost use Rattle.std.specs.Prelude.{◌≡◌, ◌%◌, ◌<◌, ◌≤◌, ◌∷◌, [], length};
ghost use Rattle.leb_codec.specs.Spelling.{magnitude, signed_value};
ghost use Rattle.leb_codec.specs.Reading.{number_at};
ghost use Rattle.leb_codec.specs.declared.form.Form.TheVariants.{U32, S32};

use crate::fault::LebFault;
use crate::form::Form;

/// The low seven bits.
#[inline(always)]
fn seven(byte: u8) -> u32
    ensures { result ≡ byte % 128 }
{
    u32::from(byte & 0x7f)
}

/// The number of one byte, with its sign.
#[inline(always)]
pub fn small(byte: u8) -> i32
    requires { byte < 128 }
    ensures { result ≡ signed_value (byte ∷ []) }
{
    if byte < 0x40 {
        i32::from(byte)
    } else {
        i32::from(byte) - 0x80
    }
}

/// The u32 at the front.
#[inline(always)]
pub fn u32_in_five(bytes: &[u8]) -> Result<(u32, usize), LebFault>
    requires { 5 ≤ length bytes.now }
    ensures { result ≡ number_at magnitude U32 bytes.now }
{
    let one = seven(bytes[0]);
    if bytes[0] < 0x80 {
        return Ok((one, 1));
    }
    let two = one + (seven(bytes[1]) << 7);
    if bytes[1] < 0x80 {
        return Ok((two, 2));
    }
    let three = two + (seven(bytes[2]) << 14);
    if bytes[2] < 0x80 {
        return Ok((three, 3));
    }
    let four = three + (seven(bytes[3]) << 21);
    if bytes[3] < 0x80 {
        return Ok((four, 4));
    }
    if bytes[4] >= 0x80 {
        return Err(LebFault::Long);
    }
    if !Form::U32.allows(bytes[4]) {
        return Err(LebFault::BadTail);
    }
    Ok((four + (u32::from(bytes[4]) << 28), 5))
}

/// The s32 at the front.
#[inline(always)]
pub fn s32_in_five(bytes: &[u8]) -> Result<(i32, usize), LebFault>
    requires { 5 ≤ length bytes.now }
    ensures { result ≡ number_at signed_value S32 bytes.now }
{
    if bytes[0] < 0x80 {
        return Ok((small(bytes[0]), 1));
    }
    let one = seven(bytes[0]);
    if bytes[1] < 0x80 {
        return Ok((one as i32 + small(bytes[1]) * 0x80, 2));
    }
    let two = one + (seven(bytes[1]) << 7);
    if bytes[2] < 0x80 {
        return Ok((two as i32 + small(bytes[2]) * 0x4000, 3));
    }
    let three = two + (seven(bytes[2]) << 14);
    if bytes[3] < 0x80 {
        return Ok((three as i32 + small(bytes[3]) * 0x20_0000, 4));
    }
    let four = three + (seven(bytes[3]) << 21);
    if bytes[4] >= 0x80 {
        return Err(LebFault::Long);
    }
    if !Form::S32.allows(bytes[4]) {
        return Err(LebFault::BadTail);
    }
    Ok((four as i32 + small(bytes[4]) * 0x1000_0000, 5))
}
