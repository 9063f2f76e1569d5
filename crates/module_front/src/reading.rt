//! Reading the front of a module.
ghost use Rattle.std.specs.Prelude.{◌≡◌, IfOk, length, map};
ghost use Rattle.wasm_module.specs.wasm_instr.wasm_grammar.Fault.{Reads, Gives};
ghost use Rattle.wasm_module.specs.wasm_sections.Sections.{header};
ghost use Rattle.wasm_module.specs.ModuleReading.{behind, is_count, module_of};
ghost use Rattle.module_front.specs.Front.{added_up, front_at, Opens};

use crate::parts::next_parts_at;
use crate::sections::{customs_at, next_at, next_count_at};
use std::alloc::Global;
use wasm_grammar::{ReadFault, Stop, none_at};
use wasm_module::{Module, ModuleFault};
use wl_base::Seq;

/// All of a module but its bodies, and the bytes of each body.
#[derive(Drop)]
pub struct Front<'a> {
    /// The module. No body stands in it.
    pub outside: Module,
    /// For each function that is defined, the bytes of its body, without their size (Core 5.5.13).
    pub parts: Seq<&'a [u8]>,
}

/// The bytes after the header (Core 5.5.16).
fn header_at(end: usize, bytes: &[u8]) -> Result<&[u8], Stop>
    ensures { Reads (λ x. x.now) result (behind end header bytes.now) }
{
    match bytes {
        [0x00, 0x61, 0x73, 0x6d, 0x01, 0x00, 0x00, 0x00, rest @ ..] => Ok(rest),
        _ => Err(Stop::Broken(end)),
    }
}

/// Whether a data count that is given is this number.
fn is_count(data_count: Option<u32>, segments: usize) -> bool
    ensures { result ≡ is_count data_count segments }
{
    match data_count {
        None => true,
        Some(count) => count as usize == segments,
    }
}

/// The front, where its numbers add up.
fn added_up<'a>(end: usize, outside: Module, parts: Seq<&'a [u8]>) -> Result<Front<'a>, Stop>
    ensures exact { Reads (λ f. (f.outside, map (λ p. p.now) f.parts)) result (added_up end outside (map (λ p. p.now) parts.entry)) }
    ensures long { IfOk result (λ f. length f.parts ≡ length f.outside.functions) }
{
    if outside.functions.len() == parts.len()
        && is_count(outside.data_count, outside.data_segments.len())
    {
        Ok(Front { outside, parts })
    } else {
        Err(Stop::Broken(end))
    }
}

/// The front of the module that these bytes are, which reach to this end.
#[tactic(auto, unfolding(crate::specs::Front::front_at))]
fn front_at<'a>(alloc: Global, end: usize, bytes: &'a [u8]) -> Result<Front<'a>, ReadFault>
    ensures exact { Gives (λ f. (f.outside, map (λ p. p.now) f.parts)) result (front_at end bytes.now) }
    ensures long { IfOk result (λ f. length f.parts ≡ length f.outside.functions) }
{
    let start = header_at(end, bytes)?;
    let rest = customs_at(end, start)?;
    let (types, rest) = next_at(alloc, 1, end, rest)?;
    let (imports, rest) = next_at(alloc, 2, end, rest)?;
    let (functions, rest) = next_at(alloc, 3, end, rest)?;
    let (tables, rest) = next_at(alloc, 4, end, rest)?;
    let (memories, rest) = next_at(alloc, 5, end, rest)?;
    let (globals, rest) = next_at(alloc, 6, end, rest)?;
    let (exports, rest) = next_at(alloc, 7, end, rest)?;
    let (elements, rest) = next_at(alloc, 9, end, rest)?;
    let (data_count, rest) = next_count_at(end, rest)?;
    let (parts, rest) = next_parts_at(alloc, end, rest)?;
    let (data_segments, rest) = next_at(alloc, 11, end, rest)?;
    none_at(end, rest)?;
    let outside = Module {
        types,
        imports,
        functions,
        tables,
        memories,
        globals,
        exports,
        elements,
        data_count,
        bodies: Seq::new(alloc),
        data_segments,
    };
    Ok(added_up(end, outside, parts)?)
}

/// The front of the module that these bytes are (Core 5.5.16), where they are one as far as this can be seen without
/// its bodies. No body is read, so one of them may be none.
///
/// # Errors
/// `NotModule` only where the bytes are no module. Want of memory.
pub fn read_front<'a>(alloc: Global, bytes: &'a [u8]) -> Result<Front<'a>, ModuleFault>
    // The bytes are a module exactly where all parts are bodies, and then it is this one with these bodies.
    ensures opens { Opens (λ f. (f.outside, map (λ p. p.now) f.parts)) result (module_of bytes.now) }
    // There is a part for each function that is defined.
    ensures long { IfOk result (λ f. length f.parts ≡ length f.outside.functions) }
{
    Ok(front_at(alloc, bytes.len(), bytes)?)
}
