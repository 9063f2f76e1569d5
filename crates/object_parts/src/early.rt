//! The relocations of the code. Its bodies are scanned with them, and their section stands behind
//! it: so that section is read before its turn, and kept until then.
ghost use Rattle.std.specs.Prelude.{◌≡◌, ◌+◌, ◌≤◌, length, All, IfOk, IfSome};
ghost use Rattle.wasm_instr.specs.wasm_grammar.Reading.{u32_at, name_at};
ghost use Rattle.body_windows.specs.reloc_section.Relocs.{relocs_at};
ghost use Rattle.object_parts.specs.Reading.{code_relocs};
ghost use Rattle.object_parts.specs.Early.{early_target, early_of, early_named, early_in, entries_of, StandsIn};

use crate::custom::has_id;
use crate::kind::CustomKind;
use crate::placed::bytes_in;
use body_windows::{RelocSection, relocs_at};
use std::alloc::Global;
use wasm_grammar::{ReadFault, Stop, u32_at};
use wasm_module::{SectionSpan, lent_name_at};
use wl_base::OutOfMemory;

/// The section of relocations for the code section, read before its turn.
#[derive(Debug, Drop)]
pub struct Early {
    /// Its place among all sections.
    pub place: usize,
    /// What it says.
    pub relocs: RelocSection,
}

/// A section of relocations, or what stands there.
fn relocs_or_stop(
    alloc: Global,
    end: usize,
    bytes: &[u8],
) -> Result<Result<RelocSection, Stop>, OutOfMemory>
    ensures { IfOk result (λ read. read ≡ relocs_at end bytes.now) }
{
    match relocs_at(alloc, end, bytes) {
        Ok(relocs) => Ok(Ok(relocs)),
        Err(ReadFault::Stopped(stop)) => Ok(Err(stop)),
        Err(ReadFault::OutOfMemory) => Err(OutOfMemory),
    }
}

/// The relocations, where they are for the code section.
fn early_target(
    alloc: Global,
    all: &[SectionSpan],
    end: usize,
    bytes: &[u8],
) -> Result<Option<Result<RelocSection, Stop>>, OutOfMemory>
    ensures { IfOk result (λ read. read ≡ early_target all.now end bytes.now (u32_at end bytes.now)) }
{
    match u32_at(end, bytes) {
        Ok((target, _)) if has_id(10, all, target) => {
            let read = relocs_or_stop(alloc, end, bytes)?;
            Ok(Some(read))
        }
        _ => Ok(None),
    }
}

/// The relocations behind the name of a custom section, where they are for the code section.
fn early_of(
    alloc: Global,
    all: &[SectionSpan],
    kind: CustomKind,
    end: usize,
    bytes: &[u8],
) -> Result<Option<Result<RelocSection, Stop>>, OutOfMemory>
    ensures { IfOk result (λ read. read ≡ early_of all.now kind end bytes.now) }
{
    match kind {
        CustomKind::Relocs => early_target(alloc, all, end, bytes),
        CustomKind::Linking | CustomKind::Shared | CustomKind::Other => Ok(None),
    }
}

/// The relocations of a custom section, where they are for the code section.
fn early_named(
    alloc: Global,
    all: &[SectionSpan],
    end: usize,
    payload: &[u8],
) -> Result<Option<Result<RelocSection, Stop>>, OutOfMemory>
    ensures { IfOk result (λ read. read ≡ early_named all.now end (name_at end payload.now)) }
{
    match lent_name_at(end, payload) {
        Ok((name, rest)) => {
            let kind = CustomKind::of(name);
            early_of(alloc, all, kind, end, rest)
        }
        Err(Stop::Broken(_) | Stop::Foreign(_)) => Ok(None),
    }
}

/// The relocations of one section, where they are for the code section.
fn early_in(
    alloc: Global,
    all: &[SectionSpan],
    bytes: &[u8],
    section: SectionSpan,
) -> Result<Option<Result<RelocSection, Stop>>, OutOfMemory>
    requires lies { section.payload.start + section.payload.len ≤ length bytes.now }
    ensures { IfOk result (λ read. read ≡ early_in all.now bytes.now section) }
{
    if section.id != 0 {
        return Ok(None);
    }
    let end = (section.payload.start + section.payload.len) as usize;
    early_named(alloc, all, end, bytes_in(bytes, section.payload))
}

/// The first section that is for the code section, if it is spelled.
pub fn code_relocs(
    alloc: Global,
    all: &[SectionSpan],
    bytes: &[u8],
) -> Result<Option<Early>, OutOfMemory>
    requires lie { All (λ s. s.payload.start + s.payload.len ≤ length bytes.now) all.now }
    ensures entries { IfOk result (λ found. entries_of found ≡ code_relocs all.now bytes.now all.now) }
    ensures stands { IfOk result (λ found. IfSome found (StandsIn all.now bytes.now)) }
{
    for (place, section) in all.iter().enumerate() {
        if let Some(read) = early_in(alloc, all, bytes, *section)? {
            return match read {
                Ok(relocs) => Ok(Some(Early { place, relocs })),
                Err(_) => Ok(None),
            };
        }
    }
    Ok(None)
}
