//! The whole of a section `reloc.`.
ghost use Rattle.std.specs.Prelude.{length, Ok, IfOk};
ghost use Rattle.wasm_grammar.specs.Fault.{Gives};
ghost use Rattle.reloc_section.specs.Fault.{Tells};
ghost use Rattle.reloc_section.specs.Relocs.{SpellsRelocSection, reloc_section_at, relocs_at};
ghost use Rattle.reloc_section.specs.declared.section.RelocSection.{RelocSection};

use crate::entry::Reloc;
use crate::fault::RelocFault;
use std::alloc::Global;
use wasm_grammar::{Form, ReadFault, u32_at, vector_at, whole};
use wl_base::Seq;

/// What a section `reloc.` says (Linking.md, 'Relocation Sections').
#[derive(Debug, PartialEq, Eq, Drop)]
pub struct RelocSection {
    /// The section whose payload the entries speak of, counted from 0 over all sections.
    pub target: u32,
    /// The entries, as they stand.
    pub entries: Seq<Reloc>,
}

/// The target and the entries at the front, and the bytes after them.
#[tactic(auto, unfolding(crate::specs::Relocs::reloc_section_at))]
fn reloc_section_at(
    alloc: Global,
    end: usize,
    bytes: &[u8],
) -> Result<(RelocSection, &[u8]), ReadFault>
    ensures { Gives (λ x. (x.0, x.1.now)) result (reloc_section_at end bytes.now) }
{
    let (target, rest) = u32_at(end, bytes)?;
    let (entries, rest) = vector_at(alloc, end, rest)?;
    Ok((RelocSection { target, entries }, rest))
}

impl Form for RelocSection {
    ghost use Rattle.reloc_section.specs.RelocLaws.{reloc_section_reader};

    ghost spells = { SpellsRelocSection };

    ghost read_at = { reloc_section_at };

    ghost exact = { reloc_section_reader };

    fn form_at(
        alloc: Global,
        end: usize,
        bytes: &[u8],
    ) -> Result<(RelocSection, &[u8]), ReadFault> {
        reloc_section_at(alloc, end, bytes)
    }
}

/// A payload, what follows the section's name, of bytes that reach to this end. It is all of the
/// bytes: one that is left over is broken.
pub fn relocs_at(alloc: Global, end: usize, bytes: &[u8]) -> Result<RelocSection, ReadFault>
    ensures { Gives (λ x. x) result (relocs_at end bytes.now) }
{
    whole(alloc, end, bytes)
}

/// Reads a payload, what follows the section's name (Linking.md, 'Relocation Sections').
///
/// An entry of a type that isn't read is answered by `ForeignType`, as soon as its type is read.
/// What is outside the grammar, or left over, is answered by `NotReloc`.
pub fn read(alloc: Global, payload: &[u8]) -> Result<RelocSection, RelocFault>
    // What is read is spelled so.
    ensures found { IfOk result (λ s. SpellsRelocSection s payload.now) }
    // What is spelled so is read, unless memory runs out.
    ensures only { (s : RelocSection) → SpellsRelocSection s payload.now → Tells result (Ok s) }
    // Which fault it is: the first from the left.
    ensures exact { Tells result (relocs_at (length payload.now) payload.now) }
{
    Ok(relocs_at(alloc, payload.len(), payload)?)
}
