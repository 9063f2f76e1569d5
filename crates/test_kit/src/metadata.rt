//! What an object says of its parts for the linker, and its relocations.

use crate::bytes::name;
use linking_section::{Group, Linking, Member, SegmentInfo, Symbol, SymbolKind};
use reloc_section::Reloc;
use std::alloc::Global;
use wl_base::{OutOfMemory, Seq};

/// A section `linking` that says nothing.
pub fn silent(alloc: Global) -> Linking {
    Linking {
        segments: Seq::new(alloc),
        inits: Seq::new(alloc),
        groups: Seq::new(alloc),
        symbols: Seq::new(alloc),
    }
}

// The name of this text, where there is one.
fn name_of(alloc: Global, text: Option<&str>) -> Result<Option<Seq<u8>>, OutOfMemory> {
    match text {
        Some(text) => Ok(Some(name(alloc, text)?)),
        None => Ok(None),
    }
}

/// A symbol of this kind, with this name where there is one. It is no datum.
pub fn symbol(
    alloc: Global,
    kind: SymbolKind,
    flags: u32,
    text: Option<&str>,
    index: u32,
) -> Result<Symbol, OutOfMemory> {
    let name = name_of(alloc, text)?;
    Ok(Symbol {
        kind,
        flags,
        name,
        index,
        offset: 0,
        size: 0,
    })
}

/// What is said of a segment.
pub fn segment_info(
    alloc: Global,
    text: &str,
    align: u32,
    flags: u32,
) -> Result<SegmentInfo, OutOfMemory> {
    let name = name(alloc, text)?;
    Ok(SegmentInfo { name, align, flags })
}

/// A member of a group: its kind and index.
pub fn member(kind: u8, index: u32) -> Member {
    Member { kind, index }
}

/// A group of this name.
pub fn group(alloc: Global, text: &str, members: &[Member]) -> Result<Group, OutOfMemory> {
    let name = name(alloc, text)?;
    let members = Seq::from_slice(alloc, members)?;
    Ok(Group { name, members })
}

/// A relocation of this type, of the bytes at this offset, to this symbol or type.
pub fn reloc(kind: u8, offset: u32, index: u32, addend: i32) -> Reloc {
    Reloc {
        kind,
        offset,
        index,
        addend,
    }
}
