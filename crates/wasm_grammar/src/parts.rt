//! Bytes, numbers, and parts of a given size, with no memory taken.
//!
//! Each reader is given the place of the end of its bytes, and counts the places of its faults as
//! that is counted. It answers the value at the front and the bytes after it, or the first fault.
ghost use Rattle.std.specs.Prelude.{◌≡◌, ◌-◌, length};
ghost use Rattle.wasm_grammar.specs.Fault.{Reads};
ghost use Rattle.wasm_grammar.specs.Reading.{byte_at, tag_at, u32_at, s32_at, s33_at, s64_at, front_at, bytes_at, part_at, none_at};

use crate::fault::Stop;
use leb_codec::{read_s32, read_s33, read_s64, read_u32};

/// The place where the bytes stand that reach to this end.
pub fn place(end: usize, bytes: &[u8]) -> usize
    ensures { result ≡ end - length bytes.now }
{
    end.saturating_sub(bytes.len())
}

/// The byte at the front, and the bytes after it (Core 5.2.1). No byte is broken at the end.
pub fn byte_at(end: usize, bytes: &[u8]) -> Result<(u8, &[u8]), Stop>
    ensures { Reads (λ x. (x.0, x.1.now)) result (byte_at end bytes.now) }
{
    match bytes {
        [] => Err(Stop::Broken(end)),
        [byte, rest @ ..] => Ok((*byte, rest)),
    }
}

/// The bytes after a byte that has to stand at the front. Another one is broken at its own place.
pub fn tag_at(tag: u8, end: usize, bytes: &[u8]) -> Result<&[u8], Stop>
    ensures { Reads (λ x. x.now) result (tag_at tag end bytes.now) }
{
    match bytes {
        [byte, rest @ ..] if *byte == tag => Ok(rest),
        _ => Err(Stop::Broken(place(end, bytes))),
    }
}

/// A u32 of any length.
#[tactic(auto, unfolding(crate::specs::Reading::u32_at))]
fn long_u32_at(end: usize, bytes: &[u8]) -> Result<(u32, &[u8]), Stop>
    ensures { Reads (λ x. (x.0, x.1.now)) result (u32_at end bytes.now) }
{
    match read_u32(bytes) {
        Ok((number, used)) => Ok((number, &bytes[used..])),
        Err(_) => Err(Stop::Broken(place(end, bytes))),
    }
}

/// The u32 at the front, and the bytes after it (Core 5.2.2). A number that isn't whole or is out
/// of range is broken at its first byte.
pub fn u32_at(end: usize, bytes: &[u8]) -> Result<(u32, &[u8]), Stop>
    ensures { Reads (λ x. (x.0, x.1.now)) result (u32_at end bytes.now) }
{
    match bytes {
        // Most numbers have one byte.
        [low, rest @ ..] if *low < 0x80 => Ok((u32::from(*low), rest)),
        _ => long_u32_at(end, bytes),
    }
}

/// A s32 of any length.
#[tactic(auto, unfolding(crate::specs::Reading::s32_at))]
fn long_s32_at(end: usize, bytes: &[u8]) -> Result<(i32, &[u8]), Stop>
    ensures { Reads (λ x. (x.0, x.1.now)) result (s32_at end bytes.now) }
{
    match read_s32(bytes) {
        Ok((number, used)) => Ok((number, &bytes[used..])),
        Err(_) => Err(Stop::Broken(place(end, bytes))),
    }
}

/// The s32 at the front, and the bytes after it (Core 5.2.2). A number that isn't whole or is out
/// of range is broken at its first byte.
pub fn s32_at(end: usize, bytes: &[u8]) -> Result<(i32, &[u8]), Stop>
    ensures { Reads (λ x. (x.0, x.1.now)) result (s32_at end bytes.now) }
{
    match bytes {
        // Most numbers have one byte.
        [low, rest @ ..] if *low < 0x40 => Ok((i32::from(*low), rest)),
        _ => long_s32_at(end, bytes),
    }
}

/// The s33 at the front, as a block type has it, and the bytes after it (Core 5.2.2, 5.4.1).
#[tactic(auto, unfolding(crate::specs::Reading::s33_at))]
pub fn s33_at(end: usize, bytes: &[u8]) -> Result<(i64, &[u8]), Stop>
    ensures { Reads (λ x. (x.0, x.1.now)) result (s33_at end bytes.now) }
{
    match read_s33(bytes) {
        Ok((number, used)) => Ok((number, &bytes[used..])),
        Err(_) => Err(Stop::Broken(place(end, bytes))),
    }
}

/// The s64 at the front, and the bytes after it (Core 5.2.2).
#[tactic(auto, unfolding(crate::specs::Reading::s64_at))]
pub fn s64_at(end: usize, bytes: &[u8]) -> Result<(i64, &[u8]), Stop>
    ensures { Reads (λ x. (x.0, x.1.now)) result (s64_at end bytes.now) }
{
    match read_s64(bytes) {
        Ok((number, used)) => Ok((number, &bytes[used..])),
        Err(_) => Err(Stop::Broken(place(end, bytes))),
    }
}

/// So many bytes at the front, and the bytes after them. They are broken at the end, where they run
/// out.
#[tactic(auto, unfolding(crate::specs::Reading::front_at))]
pub fn front_at(n: u32, end: usize, bytes: &[u8]) -> Result<(&[u8], &[u8]), Stop>
    ensures { Reads (λ x. (x.0.now, x.1.now)) result (front_at n end bytes.now) }
{
    let n = n as usize;
    if n <= bytes.len() {
        Ok((&bytes[..n], &bytes[n..]))
    } else {
        Err(Stop::Broken(end))
    }
}

/// A vector of bytes at the front, and the bytes after it (Core 5.1.3).
#[tactic(auto, unfolding(crate::specs::Reading::bytes_at))]
pub fn bytes_at(end: usize, bytes: &[u8]) -> Result<(&[u8], &[u8]), Stop>
    ensures { Reads (λ x. (x.0.now, x.1.now)) result (bytes_at end bytes.now) }
{
    let (count, rest) = u32_at(end, bytes)?;
    front_at(count, end, rest)
}

/// The bytes that the u32 size at the front measures, and the bytes after them (Core 5.5.2). A size
/// that runs past the end is broken at its own place.
#[tactic(auto, unfolding(crate::specs::Reading::part_at))]
pub fn part_at(end: usize, bytes: &[u8]) -> Result<(&[u8], &[u8]), Stop>
    ensures { Reads (λ x. (x.0.now, x.1.now)) result (part_at end bytes.now) }
{
    let (size, rest) = u32_at(end, bytes)?;
    let size = size as usize;
    if size <= rest.len() {
        Ok((&rest[..size], &rest[size..]))
    } else {
        Err(Stop::Broken(place(end, bytes)))
    }
}

/// Nothing, where no byte is left. Else the first byte that is left is broken.
pub fn none_at(end: usize, bytes: &[u8]) -> Result<(), Stop>
    ensures { Reads (λ x. x) result (none_at end bytes.now) }
{
    match bytes {
        [] => Ok(()),
        _ => Err(Stop::Broken(place(end, bytes))),
    }
}
