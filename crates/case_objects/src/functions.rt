//! How many functions a module defines.
ghost use Rattle.std.specs.Prelude.{◌≡◌, length, option_map, None};
ghost use Rattle.wasm_instr.specs.wasm_grammar.Fault.{Reads};
ghost use Rattle.wasm_sections.specs.Sections.{header};
ghost use Rattle.wasm_module.specs.ModuleReading.{behind};
ghost use Rattle.case_objects.specs.Functions.{Section, section_at, sections_at, found_at, found_with, count_of, functions_at, functions_in};

use wasm_grammar::{Stop, byte_at, part_at, u32_at};

/// The id of the function section (Core 5.5.6).
const FUNCTION_SECTION: u8 = 3;

/// The bytes after the magic and the version (Core 5.5.16).
fn header_at(end: usize, bytes: &[u8]) -> Result<&[u8], Stop>
    ensures { Reads (λ x. x.now) result (behind end header bytes.now) }
{
    match bytes {
        [0x00, 0x61, 0x73, 0x6d, 0x01, 0x00, 0x00, 0x00, rest @ ..] => Ok(rest),
        _ => Err(Stop::Broken(end)),
    }
}

/// The id and the contents of the section at the front, and the bytes after it (Core 5.5.2).
#[tactic(auto, unfolding(crate::specs::Functions::section_at))]
fn section_at(end: usize, bytes: &[u8]) -> Result<(u8, &[u8], &[u8]), Stop>
    ensures { Reads (λ x. (record { id = x.0; contents = x.1.now }, x.2.now)) result (section_at end bytes.now) }
{
    let (id, rest) = byte_at(end, bytes)?;
    let (contents, rest) = part_at(end, rest)?;
    Ok((id, contents, rest))
}

/// What was found before, or else the contents of a section where it is a function section.
fn first_found<'a>(found: Option<&'a [u8]>, id: u8, contents: &'a [u8]) -> Option<&'a [u8]>
    ensures { option_map (λ c. c.now) result
        ≡ found_at 3 (option_map (λ c. c.now) found.entry) (record { id = id; contents = contents.now }) }
{
    match found {
        None if id == FUNCTION_SECTION => Some(contents),
        _ => found,
    }
}

/// The contents of the first function section, where the bytes are sections; `None` where there is
/// none.
fn function_section(end: usize, bytes: &[u8]) -> Result<Option<&[u8]>, Stop>
    ensures { Reads (λ x. option_map (λ c. c.now) x) result
        (found_with 3 None (sections_at (length bytes.now) end bytes.now)) }
{
    let mut found = None;
    let mut rest = bytes;
    for _ in 0..bytes.len() {
        if rest.is_empty() {
            return Ok(found);
        }
        let (id, contents, after) = section_at(end, rest)?;
        found = first_found(found, id, contents);
        rest = after;
    }
    Ok(found)
}

/// The count at the front of a section's vector; 0 where the section isn't there.
fn count_of(end: usize, contents: Option<&[u8]>) -> Result<u32, Stop>
    ensures { Reads (λ n. n) result (count_of end (option_map (λ c. c.now) contents.entry)) }
{
    match contents {
        None => Ok(0),
        Some(contents) => {
            let (count, _) = u32_at(end, contents)?;
            Ok(count)
        }
    }
}

/// The count of the function section.
#[tactic(auto, unfolding(crate::specs::Functions::functions_at))]
fn functions_at(end: usize, bytes: &[u8]) -> Result<u32, Stop>
    ensures { Reads (λ n. n) result (functions_at end bytes.now) }
{
    let rest = header_at(end, bytes)?;
    let contents = function_section(end, rest)?;
    count_of(end, contents)
}

/// How many functions the module defines, read off the count of its function section; 0 where it has
/// no such section or no u32 stands there, or where the bytes aren't the magic, the version and
/// sections. It takes no memory.
///
/// Core 5.5.2, 5.5.6 and 5.5.16.
pub fn count_functions(bytes: &[u8]) -> u64
    ensures { result ≡ functions_in bytes.now }
{
    match functions_at(bytes.len(), bytes) {
        Ok(count) => u64::from(count),
        Err(_) => 0,
    }
}
