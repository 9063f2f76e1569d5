//! Writing the section: it is measured, and then written into one buffer of that length.
ghost use Rattle.std.specs.Prelude.{◌≡◌, ◌≤◌, ◌+◌, List, map, length, IfOk, IfSome};
ghost use Rattle.leb_codec.specs.Shortest.{u32 as shortest_u32};
ghost use Rattle.image_emit.specs.Put.{IsPut, HasRoom, capped};
ghost use Rattle.name_section.specs.Names.{Named, named_seen, name_map, function_subsection, names_payload, whole_section, name_section};
ghost use Rattle.name_section.specs.Lengths.{AreLengths};

use crate::name::FunctionName;
use image_emit::put::{put_byte, put_number, put_sized, put_vector, u32_size, vector_size};
use std::alloc::Global;
use wl_base::{OutOfMemory, Seq};

/// The number of a custom section (Core 5.5.2).
const CUSTOM: u8 = 0;

/// The number of the subsection of functions' names (Core, appendix 7.4.1).
const FUNCTION_NAMES: u8 = 1;

/// The section's name.
const SECTION_NAME: [u8; 4] = *b"name";

/// How long that is.
const NAME_LEN: u32 = 4;

/// The longest section is 2^31 - 1 bytes.
const LONGEST: u64 = 0x7FFF_FFFF;

/// How long the parts of the section are that stand behind their lengths, and how long it is.
#[derive(Clone, Copy)]
struct Lengths {
    map: u32,
    payload: u32,
    whole: u64,
}

/// How many bytes a length and so many are.
fn sized_len(len: u32) -> u64
    ensures is { result ≡ length (shortest_u32 len) + len }
    ensures few { result ≤ len + 5 }
{
    let len = u64::from(len);
    u32_size(len) + len
}

/// How long the map of these names is.
#[tactic(auto, using(crate::proofs::Maps::map_is))]
fn map_len(names: &[FunctionName<'_>]) -> u64
    ensures { result ≡ capped (length (name_map (map named_seen names.now))) }
{
    vector_size(names)
}

/// The same where a number of 32 bits holds it.
#[tactic(auto, using(crate::proofs::Sizes::uncapped))]
fn short_map_len(names: &[FunctionName<'_>]) -> Option<u32>
    ensures { IfSome result (λ n. n ≡ length (name_map (map named_seen names.now))) }
{
    match u32::try_from(map_len(names)) {
        Ok(len) => Some(len),
        Err(_) => None,
    }
}

/// How long the payload is, by the length of the map.
#[tactic(auto, using(crate::proofs::Sizes::payload_is))]
fn payload_len(map: u32) -> u64
    ensures is { (names : List Named) → map ≡ length (name_map names) → result ≡ length (names_payload names) }
    ensures few { result ≤ map + 15 }
{
    sized_len(NAME_LEN) + (1 + sized_len(map))
}

/// How long the section is, by the length of the payload.
#[tactic(auto, using(crate::proofs::Sizes::whole_is))]
fn whole_len(payload: u32) -> u64
    ensures { (names : List Named) → payload ≡ length (names_payload names) → result ≡ length (whole_section names) }
{
    1 + sized_len(payload)
}

/// How long the section of these names is, where it has fewer than 2^31 bytes.
fn lengths_of(names: &[FunctionName<'_>]) -> Option<Lengths>
    ensures { IfSome result (λ l. AreLengths l (map named_seen names.now)) }
{
    let Some(map) = short_map_len(names) else {
        return None;
    };
    let Ok(payload) = u32::try_from(payload_len(map)) else {
        return None;
    };
    let whole = whole_len(payload);
    if whole > LONGEST {
        return None;
    }
    Some(Lengths {
        map,
        payload,
        whole,
    })
}

#[tactic(auto, using(crate::proofs::Maps::map_is))]
fn put_map(names: &[FunctionName<'_>], at: usize, out: &mut [u8]) -> usize
    requires { HasRoom out.old at (name_map (map named_seen names.now)) }
    ensures { IsPut out.old at (name_map (map named_seen names.now)) result out.new }
{
    put_vector(names, at, out)
}

fn put_subsection(names: &[FunctionName<'_>], len: u32, at: usize, out: &mut [u8]) -> usize
    requires len { len ≡ length (name_map (map named_seen names.now)) }
    requires room { HasRoom out.old at (function_subsection (map named_seen names.now)) }
    ensures { IsPut out.old at (function_subsection (map named_seen names.now)) result out.new }
{
    let at = put_byte(FUNCTION_NAMES, at, out);
    let at = put_number(len, at, out);
    put_map(names, at, out)
}

fn put_payload(names: &[FunctionName<'_>], len: u32, at: usize, out: &mut [u8]) -> usize
    requires len { len ≡ length (name_map (map named_seen names.now)) }
    requires room { HasRoom out.old at (names_payload (map named_seen names.now)) }
    ensures { IsPut out.old at (names_payload (map named_seen names.now)) result out.new }
{
    let at = put_sized(SECTION_NAME.as_slice(), at, out);
    put_subsection(names, len, at, out)
}

fn put_section(names: &[FunctionName<'_>], lengths: Lengths, at: usize, out: &mut [u8]) -> usize
    requires lengths { AreLengths lengths (map named_seen names.now) }
    requires room { HasRoom out.old at (whole_section (map named_seen names.now)) }
    ensures { IsPut out.old at (whole_section (map named_seen names.now)) result out.new }
{
    let at = put_byte(CUSTOM, at, out);
    let at = put_number(lengths.payload, at, out);
    put_payload(names, lengths.map, at, out)
}

/// The same in a buffer of its own.
fn section_of(alloc: Global, names: &[FunctionName<'_>]) -> Result<Seq<u8>, OutOfMemory>
    ensures { IfOk result (λ bytes. bytes ≡ whole_section (map named_seen names.now)) }
{
    let Some(lengths) = lengths_of(names) else {
        return Err(OutOfMemory);
    };
    let mut out = vec![in alloc; 0u8; lengths.whole as usize]?;
    put_section(names, lengths, 0, &mut out);
    Ok(Seq::from_vec(out))
}

/// Writes the custom section of these names, which stand by rising number (Core, appendix 7.4.1); no byte where there are none.
///
/// # Errors
///
/// Memory is refused, or the section would have 2^31 bytes and more.
#[tactic(auto, using(crate::proofs::Maps::some_are, crate::proofs::Maps::none_are))]
pub fn write_names(alloc: Global, names: &[FunctionName<'_>]) -> Result<Seq<u8>, OutOfMemory>
    ensures { IfOk result (λ bytes. bytes ≡ name_section (map named_seen names.now)) }
{
    if names.is_empty() {
        return Ok(Seq::new(alloc));
    }
    section_of(alloc, names)
}
