//! Entries of a section `reloc.`.
ghost use Rattle.std.specs.Prelude.{◌≡◌};
ghost use Rattle.wasm_grammar.specs.Fault.{Reads};
ghost use Rattle.reloc_section.specs.Relocs.{SpellsReloc, known_kind, addend_at, reloc_at};
ghost use Rattle.reloc_section.specs.Short.{with_addend};

use crate::kinds::{has_addend, is_read};
use crate::short::short_front;
use std::alloc::Global;
use wasm_grammar::{Form, ReadFault, Stop, byte_at, s32_at, u32_at};
use wl_base::Item;

/// A place that the linker writes anew, and what it writes there (Linking.md, 'Relocation
/// Sections').
#[derive(Clone, Copy, Debug, PartialEq, Eq)]
pub struct Reloc {
    /// The type, one of `kinds`.
    pub kind: u8,
    /// The place, in bytes from the start of the target's payload; in a custom section, from the
    /// byte after its name.
    pub offset: u32,
    /// The index of the symbol that it names, or of the type for `TYPE_INDEX_LEB`.
    pub index: u32,
    /// What is added to the value. It is 0 for the types without an addend.
    pub addend: i32,
}

/// The type, if it is read. Another one is foreign.
fn known_kind(kind: u8) -> Result<u8, Stop>
    ensures { result ≡ known_kind kind }
{
    if is_read(kind) {
        Ok(kind)
    } else {
        Err(Stop::Foreign(Item::RelocType(kind)))
    }
}

/// The addend of an entry of this type, and the bytes after it.
fn addend_at(kind: u8, end: usize, bytes: &[u8]) -> Result<(i32, &[u8]), Stop>
    ensures { Reads (λ x. (x.0, x.1.now)) result (addend_at kind end bytes.now) }
{
    if has_addend(kind) {
        s32_at(end, bytes)
    } else {
        Ok((0, bytes))
    }
}

/// The entry of this type, offset and index, and the bytes after its addend.
fn with_addend(
    kind: u8,
    offset: u32,
    index: u32,
    end: usize,
    bytes: &[u8],
) -> Result<(Reloc, &[u8]), Stop>
    ensures { Reads (λ x. (x.0, x.1.now)) result (with_addend kind offset index end bytes.now) }
{
    let (addend, rest) = addend_at(kind, end, bytes)?;
    let entry = Reloc {
        kind,
        offset,
        index,
        addend,
    };
    Ok((entry, rest))
}

/// An entry of any length.
#[tactic(auto, unfolding(crate::specs::Relocs::reloc_at))]
fn long_reloc_at(end: usize, bytes: &[u8]) -> Result<(Reloc, &[u8]), Stop>
    ensures { Reads (λ x. (x.0, x.1.now)) result (reloc_at end bytes.now) }
{
    let (byte, rest) = byte_at(end, bytes)?;
    let kind = known_kind(byte)?;
    let (offset, rest) = u32_at(end, rest)?;
    let (index, rest) = u32_at(end, rest)?;
    with_addend(kind, offset, index, end, rest)
}

/// The entry at the front, and the bytes after it. A type that isn't read is foreign, before its
/// offset is read.
pub fn reloc_at(end: usize, bytes: &[u8]) -> Result<(Reloc, &[u8]), Stop>
    ensures { Reads (λ x. (x.0, x.1.now)) result (reloc_at end bytes.now) }
{
    match short_front(bytes) {
        Some((kind, offset, index, rest)) => with_addend(kind, offset, index, end, rest),
        None => long_reloc_at(end, bytes),
    }
}

impl Form for Reloc {
    ghost use Rattle.reloc_section.specs.RelocLaws.{reloc_reader};

    ghost spells = { SpellsReloc };

    ghost read_at = { reloc_at };

    ghost exact = { reloc_reader };

    fn form_at(_alloc: Global, end: usize, bytes: &[u8]) -> Result<(Reloc, &[u8]), ReadFault> {
        Ok(reloc_at(end, bytes)?)
    }
}
