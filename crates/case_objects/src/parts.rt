//! Bytes that are made of parts.
ghost use Rattle.std.specs.Prelude.{◌≡◌, IfOk};
ghost use Rattle.case_objects.specs.Parts.{joined, sized as sized_of, section as section_of, custom as custom_of, letter_name};

use leb_codec::write_u32;
use std::alloc::Global;
use wl_base::{OutOfMemory, Seq};

/// The parts, one behind the other.
pub fn join(alloc: Global, parts: &[&[u8]]) -> Result<Seq<u8>, OutOfMemory>
    ensures { IfOk result (λ bytes. bytes ≡ joined parts.now) }
{
    let mut bytes = Seq::new(alloc);
    for part in parts {
        bytes.extend_from_slice(part)?;
    }
    Ok(bytes)
}

/// The bytes behind their length: a vector of bytes (Core 5.1.3).
pub fn sized(alloc: Global, bytes: &[u8]) -> Result<Seq<u8>, OutOfMemory>
    ensures { IfOk result (λ all. all ≡ sized_of bytes.now) }
{
    let Ok(len) = u32::try_from(bytes.len()) else {
        return Err(OutOfMemory);
    };
    let mut spelling = [0; 10];
    let used = write_u32(len, &mut spelling);
    join(alloc, &[&spelling[..used], bytes])
}

/// The section of this id that has these parts as its contents (Core 5.5.2).
pub fn section(alloc: Global, id: u8, parts: &[&[u8]]) -> Result<Seq<u8>, OutOfMemory>
    ensures { IfOk result (λ bytes. bytes ≡ section_of id (joined parts.now)) }
{
    let contents = join(alloc, parts)?;
    let sized = sized(alloc, contents.as_slice())?;
    join(alloc, &[&[id], sized.as_slice()])
}

/// The custom section of this name (Core 5.5.3).
pub fn custom(alloc: Global, name: &[u8], contents: &[u8]) -> Result<Seq<u8>, OutOfMemory>
    ensures { IfOk result (λ bytes. bytes ≡ custom_of name.now contents.now) }
{
    let name = sized(alloc, name)?;
    section(alloc, 0, &[name.as_slice(), contents])
}

/// A letter and a number in decimal, as a vector of bytes.
pub fn numbered(alloc: Global, letter: u8, number: u32) -> Result<Seq<u8>, OutOfMemory>
    ensures { IfOk result (λ name. name ≡ sized_of (letter_name letter number)) }
{
    let name = join(
        alloc,
        &[&[letter], itoa::Buffer::new().format(number).as_bytes()],
    )?;
    let sized = sized(alloc, name.as_slice())?;
    Ok(sized)
}
