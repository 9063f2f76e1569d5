//! Writing numbers.
ghost use Rattle.std.specs.Prelude.{◌≡◌, ℕ, ℤ, ◌+◌, ◌%◌, ◌^◌, ◌<◌, ◌≤◌, List, length, take, drop};
ghost use Rattle.leb_codec.specs.Spelling.{magnitude, signed_value, Spells};
ghost use Rattle.leb_codec.specs.Shortest.{shortest_signed, u32 as shortest_u32, u32_padded, s32 as shortest_s32, s32_padded, s64 as shortest_s64};
ghost use Rattle.leb_codec.specs.Writing.{group, turned};
ghost use Rattle.leb_codec.specs.declared.form.Form.TheVariants.{U32, S32, S64};

/// Seven bits of a number that has more.
fn high_byte(bits: u32) -> u8
    ensures { result ≡ 128 + bits % 128 }
{
    (bits & 0x7f) as u8 | 0x80
}

/// Writes the shortest spelling of a u32 at the front, and says how many bytes it takes.
///
/// Core Specification, "Binary Format, Values, Integers".
#[tactic(auto, unfolding(crate::specs::Shortest::u32))]
pub fn write_u32(n: u32, to: &mut [u8; 10]) -> usize
    ensures bytes { take result to.new ≡ shortest_u32 n }
    ensures spells { Spells magnitude U32 (take result to.new) n }
    // No spelling takes fewer bytes.
    ensures shortest { (bytes : List ℕ) → Spells magnitude U32 bytes n → result ≤ length bytes }
    ensures within { result ≤ 5 }
    ensures kept { drop result to.new ≡ drop result to.old }
{
    let mut rest = n;
    let mut len = 0;
    while rest >= 0x80 {
        to[len] = high_byte(rest);
        rest >>= 7;
        len += 1;
    }
    to[len] = rest as u8;
    len + 1
}

/// The next seven bits, each turned over where the number is negative.
fn next_group(negative: bool, bits: u64) -> u8
    ensures { result ≡ group negative bits }
{
    let low = (bits & 0x7f) as u8;
    if negative { 0x7f - low } else { low }
}

/// Writes a number from 0 on by its bits, or a negative one by the bits of -1 less the number.
fn write_groups(negative: bool, bits: u64, to: &mut [u8; 10]) -> usize
    requires { bits < 2 ^ 63 }
    ensures bytes { take result to.new ≡ shortest_signed 9 (turned negative bits) }
    ensures within { result ≤ 10 }
    ensures kept { drop result to.new ≡ drop result to.old }
{
    let mut rest = bits;
    let mut len = 0;
    while rest >= 0x40 {
        to[len] = next_group(negative, rest) + 0x80;
        rest >>= 7;
        len += 1;
    }
    to[len] = next_group(negative, rest);
    len + 1
}

/// Writes the shortest spelling of an s64 at the front, and says how many bytes it takes.
///
/// Core Specification, "Binary Format, Values, Integers".
pub fn write_s64(n: i64, to: &mut [u8; 10]) -> usize
    ensures bytes { take result to.new ≡ shortest_s64 n }
    ensures spells { Spells signed_value S64 (take result to.new) n }
    // No spelling takes fewer bytes.
    ensures shortest { (bytes : List ℕ) → Spells signed_value S64 bytes n → result ≤ length bytes }
    ensures within { result ≤ 10 }
    ensures kept { drop result to.new ≡ drop result to.old }
{
    if n < 0 {
        write_groups(true, (-1 - n) as u64, to)
    } else {
        write_groups(false, n as u64, to)
    }
}

/// Writes the shortest spelling of an s32 at the front, and says how many bytes it takes.
///
/// Core Specification, "Binary Format, Values, Integers".
pub fn write_s32(n: i32, to: &mut [u8; 10]) -> usize
    ensures bytes { take result to.new ≡ shortest_s32 n }
    ensures spells { Spells signed_value S32 (take result to.new) n }
    // No spelling takes fewer bytes.
    ensures shortest { (bytes : List ℕ) → Spells signed_value S32 bytes n → result ≤ length bytes }
    ensures within { result ≤ 5 }
    ensures kept { drop result to.new ≡ drop result to.old }
{
    if n < 0 {
        write_groups(true, (-1 - n) as u64, to)
    } else {
        write_groups(false, n as u64, to)
    }
}

/// The spelling of a u32 in five bytes, as relocated numbers have it.
///
/// Linking.md, "Relocation Sections".
#[tactic(auto, unfolding(crate::specs::Shortest::u32_padded))]
pub fn put_u32_5(n: u32) -> [u8; 5]
    ensures bytes { result ≡ u32_padded n }
    ensures spells { Spells magnitude U32 result n }
{
    [
        high_byte(n),
        high_byte(n >> 7),
        high_byte(n >> 14),
        high_byte(n >> 21),
        (n >> 28) as u8,
    ]
}

/// The spelling of an s32 in five bytes, as relocated numbers have it.
///
/// Linking.md, "Relocation Sections".
#[tactic(auto, unfolding(crate::specs::Shortest::s32_padded))]
pub fn put_s32_5(n: i32) -> [u8; 5]
    ensures bytes { result ≡ s32_padded n }
    ensures spells { Spells signed_value S32 result n }
{
    let bits = n.cast_unsigned();
    let top = (bits >> 28) as u8;
    [
        high_byte(bits),
        high_byte(bits >> 7),
        high_byte(bits >> 14),
        high_byte(bits >> 21),
        // The sign fills the seven bits.
        if n < 0 { top + 0x70 } else { top },
    ]
}
