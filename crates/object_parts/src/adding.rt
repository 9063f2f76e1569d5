//! What one section adds.
ghost use Rattle.std.specs.Prelude.{◌≡◌, ◌+◌, ◌≤◌, ◌^◌, length};
ghost use Rattle.wasm_instr.specs.wasm_grammar.Fault.{Reads, Gives};
ghost use Rattle.object_parts.specs.Adding.{none_of, no_entries, end_of, add_types, add_imports, add_functions, add_globals, add_exports, add_elements, add_data_count, add_code, add_segments, add_kind};

use crate::code::bodies_at;
use crate::custom::add_custom;
use crate::data::segments_at;
use crate::elements::elements_at;
use crate::globals::globals_at;
use crate::imports::imports_at;
use crate::kind::SectionKind;
use crate::parts::Parts;
use body_windows::Reloc;
use std::alloc::Global;
use wasm_grammar::{ReadFault, Stop, none_at, u32_at, whole};
use wasm_module::SectionSpan;
use wl_base::{Item, Span};

fn none_of(item: Item, count: u32, end: usize, bytes: &[u8]) -> Result<(), Stop>
    ensures { Reads (λ x. x) result (none_of item count end bytes.now) }
{
    if count == 0 {
        return none_at(end, bytes);
    }
    match bytes {
        [] => Err(Stop::Broken(end)),
        _ => Err(Stop::Foreign(item)),
    }
}

/// A section that may have no entry.
#[tactic(auto, unfolding(crate::specs::Adding::no_entries))]
fn no_entries(item: Item, parts: &mut Parts, end: usize, payload: &[u8]) -> Result<(), ReadFault>
    ensures { Gives (λ _. parts.new) result (no_entries item parts.old end payload.now) }
{
    let (count, rest) = u32_at(end, payload)?;
    none_of(item, count, end, rest)?;
    Ok(())
}

#[tactic(auto, unfolding(crate::specs::Adding::add_types))]
fn add_types(alloc: Global, parts: &mut Parts, end: usize, payload: &[u8]) -> Result<(), ReadFault>
    ensures { Gives (λ _. parts.new) result (add_types parts.old end payload.now) }
{
    parts.types = whole(alloc, end, payload)?;
    Ok(())
}

#[tactic(auto, unfolding(crate::specs::Adding::add_imports))]
fn add_imports(
    alloc: Global,
    parts: &mut Parts,
    end: usize,
    payload: &[u8],
) -> Result<(), ReadFault>
    ensures { Gives (λ _. parts.new) result (add_imports parts.old end payload.now) }
{
    parts.imports = imports_at(alloc, end, payload)?;
    Ok(())
}

#[tactic(auto, unfolding(crate::specs::Adding::add_functions))]
fn add_functions(
    alloc: Global,
    parts: &mut Parts,
    end: usize,
    payload: &[u8],
) -> Result<(), ReadFault>
    ensures { Gives (λ _. parts.new) result (add_functions parts.old end payload.now) }
{
    parts.functions = whole(alloc, end, payload)?;
    Ok(())
}

#[tactic(auto, unfolding(crate::specs::Adding::add_globals))]
fn add_globals(
    alloc: Global,
    parts: &mut Parts,
    end: usize,
    payload: &[u8],
) -> Result<(), ReadFault>
    ensures { Gives (λ _. parts.new) result (add_globals parts.old end payload.now) }
{
    parts.globals = globals_at(alloc, end, payload)?;
    Ok(())
}

#[tactic(auto, unfolding(crate::specs::Adding::add_exports))]
fn add_exports(
    alloc: Global,
    parts: &mut Parts,
    end: usize,
    payload: &[u8],
) -> Result<(), ReadFault>
    ensures { Gives (λ _. parts.new) result (add_exports parts.old end payload.now) }
{
    parts.exports = whole(alloc, end, payload)?;
    Ok(())
}

#[tactic(auto, unfolding(crate::specs::Adding::add_elements))]
fn add_elements(
    alloc: Global,
    parts: &mut Parts,
    end: usize,
    payload: &[u8],
) -> Result<(), ReadFault>
    ensures { Gives (λ _. parts.new) result (add_elements parts.old end payload.now) }
{
    parts.elements = elements_at(alloc, end, payload)?;
    Ok(())
}

#[tactic(auto, unfolding(crate::specs::Adding::add_data_count))]
fn add_data_count(
    alloc: Global,
    parts: &mut Parts,
    end: usize,
    payload: &[u8],
) -> Result<(), ReadFault>
    ensures { Gives (λ _. parts.new) result (add_data_count parts.old end payload.now) }
{
    let count = whole(alloc, end, payload)?;
    parts.data_count = Some(count);
    Ok(())
}

#[tactic(auto, unfolding(crate::specs::Adding::add_code))]
fn add_code(
    alloc: Global,
    relocs: &[Reloc],
    parts: &mut Parts,
    start: u64,
    end: usize,
    payload: &[u8],
) -> Result<(), ReadFault>
    requires within { length payload.now ≤ end }
    requires few { end ≤ 2 ^ 30 }
    ensures { Gives (λ _. parts.new) result (add_code relocs.now parts.old start end payload.now) }
{
    parts.bodies = bodies_at(alloc, start, relocs, end, payload)?;
    Ok(())
}

#[tactic(auto, unfolding(crate::specs::Adding::add_segments))]
fn add_segments(
    alloc: Global,
    parts: &mut Parts,
    end: usize,
    payload: &[u8],
) -> Result<(), ReadFault>
    ensures { Gives (λ _. parts.new) result (add_segments parts.old end payload.now) }
{
    parts.segments = segments_at(alloc, end, payload)?;
    Ok(())
}

/// Adds what a section of this kind tells: its span in the object and its payload, all sections of
/// the object, and the relocations of its code.
pub fn add_kind(
    alloc: Global,
    all: &[SectionSpan],
    relocs: &[Reloc],
    kind: SectionKind,
    parts: &mut Parts,
    span: Span,
    payload: &[u8],
) -> Result<(), ReadFault>
    requires within { length payload.now ≤ span.start + span.len }
    requires few { span.start + span.len ≤ 2 ^ 30 }
    ensures { Gives (λ _. parts.new) result (add_kind all.now relocs.now kind parts.old span payload.now) }
{
    let end = (span.start + span.len) as usize;
    match kind {
        SectionKind::Custom => add_custom(alloc, all, parts, end, payload),
        SectionKind::Types => add_types(alloc, parts, end, payload),
        SectionKind::Imports => add_imports(alloc, parts, end, payload),
        SectionKind::Functions => add_functions(alloc, parts, end, payload),
        SectionKind::Tables => no_entries(Item::DefinedTable, parts, end, payload),
        SectionKind::Memories => no_entries(Item::DefinedMemory, parts, end, payload),
        SectionKind::Globals => add_globals(alloc, parts, end, payload),
        SectionKind::Exports => add_exports(alloc, parts, end, payload),
        SectionKind::Start => Err(ReadFault::Stopped(Stop::Foreign(Item::StartSection))),
        SectionKind::Elements => add_elements(alloc, parts, end, payload),
        SectionKind::DataCount => add_data_count(alloc, parts, end, payload),
        SectionKind::Code => add_code(alloc, relocs, parts, span.start, end, payload),
        SectionKind::Segments => add_segments(alloc, parts, end, payload),
        SectionKind::Tags => Err(ReadFault::Stopped(Stop::Foreign(Item::TagSection))),
    }
}
