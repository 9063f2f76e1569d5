//! Cutting a module before, between and behind the sections that wrappers change.
//!
//! What stands in the other sections is passed over by its size, and not looked at.
ghost use Rattle.std.specs.Prelude.{◌≡◌};
ghost use Rattle.wasm_module.specs.wasm_instr.wasm_grammar.Fault.{Reads, Gives};
ghost use Rattle.wasm_module.specs.wasm_sections.Sections.{header};
ghost use Rattle.wasm_module.specs.ModuleReading.{behind};
ghost use Rattle.export_wrappers.specs.Cuts.{up_to, section_end_at, past_at, sized_codes_at, codes_at, cut_at, seen};

use crate::sections::{begins, customs_at, next_at, section_at};
use std::alloc::Global;
use wasm_grammar::{ReadFault, Stop, part_at, place, u32_at};
use wasm_module::{Export, FuncType, Import};
use wl_base::Seq;

/// The bytes of a module that are kept.
#[derive(Clone, Copy)]
pub struct Lent<'a> {
    /// How many bodies there are.
    pub count: u32,
    /// All before the function section.
    pub before: &'a [u8],
    /// What stands between it and the export section.
    pub between: &'a [u8],
    /// What stands between that and the code section.
    pub after: &'a [u8],
    /// The bodies, each with its size.
    pub bodies: &'a [u8],
    /// All behind the code section.
    pub rest: &'a [u8],
}

/// What is read of a module, and what is kept.
#[derive(Drop)]
pub struct Cuts<'a> {
    /// The types of functions.
    pub types: Seq<FuncType>,
    /// What is imported.
    pub imports: Seq<Import>,
    /// The types of the functions that are defined.
    pub functions: Seq<u32>,
    /// What is exported.
    pub exports: Seq<Export>,
    /// The bytes of all else.
    pub kept: Lent<'a>,
}

/// The bytes after the header (Core 5.5.16).
fn header_at(end: usize, bytes: &[u8]) -> Result<&[u8], Stop>
    ensures { Reads (λ x. x.now) result (behind end header bytes.now) }
{
    match bytes {
        [0x00, 0x61, 0x73, 0x6d, 0x01, 0x00, 0x00, 0x00, rest @ ..] => Ok(rest),
        _ => Err(Stop::Broken(end)),
    }
}

/// The bytes up to where the rest begins.
fn up_to<'a>(bytes: &'a [u8], rest: &[u8]) -> &'a [u8]
    ensures { result.now ≡ up_to bytes.now rest.now }
{
    let len = bytes.len().saturating_sub(rest.len());
    &bytes[..len]
}

/// The bytes after the section of this id, where it stands at the front.
#[tactic(auto, unfolding(crate::specs::Cuts::section_end_at))]
fn section_end_at(id: u8, end: usize, bytes: &[u8]) -> Result<&[u8], Stop>
    ensures { Reads (λ x. x.now) result (section_end_at id end bytes.now) }
{
    if begins(id, bytes) {
        let (_, rest) = part_at(end, &bytes[1..])?;
        Ok(rest)
    } else {
        Ok(bytes)
    }
}

/// The bytes after it and the custom sections behind it.
#[tactic(auto, unfolding(crate::specs::Cuts::past_at))]
fn past_at(id: u8, end: usize, bytes: &[u8]) -> Result<&[u8], Stop>
    ensures { Reads (λ x. x.now) result (past_at id end bytes.now) }
{
    let rest = section_end_at(id, end, bytes)?;
    customs_at(end, rest)
}

/// How many bodies the contents of a code section have, their bytes, and those after the section.
#[tactic(auto, unfolding(crate::specs::Cuts::sized_codes_at))]
fn sized_codes_at(end: usize, bytes: &[u8]) -> Result<(u32, &[u8], &[u8]), Stop>
    ensures { Reads (λ x. (x.0, x.1.now, x.2.now)) result (sized_codes_at end bytes.now) }
{
    let (part, rest) = part_at(end, bytes)?;
    let (count, bodies) = u32_at(place(end, rest), part)?;
    Ok((count, bodies, rest))
}

/// The same, where the section stands at the front. Else there is no body.
#[tactic(auto, unfolding(crate::specs::Cuts::codes_at))]
fn codes_at(end: usize, bytes: &[u8]) -> Result<(u32, &[u8], &[u8]), Stop>
    ensures { Reads (λ x. (x.0, x.1.now, x.2.now)) result (codes_at end bytes.now) }
{
    if begins(10, bytes) {
        sized_codes_at(end, &bytes[1..])
    } else {
        Ok((0, &bytes[..0], bytes))
    }
}

/// Cuts a module, of bytes that reach to this end.
#[tactic(auto, unfolding(crate::specs::Cuts::cut_at))]
pub fn cut_at(alloc: Global, end: usize, bytes: &[u8]) -> Result<Cuts<'_>, ReadFault>
    ensures { Gives seen result (cut_at end bytes.now) }
{
    let start = header_at(end, bytes)?;
    let rest = customs_at(end, start)?;
    let (types, rest) = next_at(alloc, 1, end, rest)?;
    let (imports, first) = next_at(alloc, 2, end, rest)?;
    let (functions, second) = section_at(alloc, 3, end, first)?;
    let rest = customs_at(end, second)?;
    let rest = past_at(4, end, rest)?;
    let rest = past_at(5, end, rest)?;
    let third = past_at(6, end, rest)?;
    let (exports, fourth) = section_at(alloc, 7, end, third)?;
    let rest = customs_at(end, fourth)?;
    let rest = past_at(9, end, rest)?;
    let last = past_at(12, end, rest)?;
    let (count, bodies, rest) = codes_at(end, last)?;
    let kept = Lent {
        count,
        before: up_to(bytes, first),
        between: up_to(second, third),
        after: up_to(fourth, last),
        bodies,
        rest,
    };
    Ok(Cuts {
        types,
        imports,
        functions,
        exports,
        kept,
    })
}
