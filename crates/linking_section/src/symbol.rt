//! Symbols.
ghost use Rattle.std.specs.Prelude.{◌≡◌};
ghost use Rattle.wasm_grammar.specs.wl_base.declared.item.Item.TheVariants as items;
ghost use Rattle.wasm_grammar.specs.Fault.{Reads, Gives};
ghost use Rattle.linking_section.specs.Flags.{kind_code, is_foreign_symbol};
ghost use Rattle.linking_section.specs.Linking.{SpellsSymbol};
ghost use Rattle.linking_section.specs.Reading.{unless_at, kind_of, maybe_name_at, extent_at, indexed_at, datum_at, section_symbol_at, body_at, symbol_at};

use crate::flags::{UNDEFINED, is_foreign_symbol, is_named};
use std::alloc::Global;
use wasm_grammar::{Form, ReadFault, Stop, byte_at, name_at, place, u32_at};
use wl_base::{Item, Name};

/// What a symbol names.
#[derive(Clone, Copy, Debug, PartialEq, Eq)]
pub enum SymbolKind {
    /// A function.
    Function,
    /// A part of a data segment.
    Datum,
    /// A global.
    GlobalVar,
    /// A section.
    Section,
    /// A table.
    Table,
}

/// A symbol (Linking.md, 'Linking Metadata Section'). Fields that its kind doesn't have are 0.
#[derive(Debug, PartialEq, Eq, Drop)]
pub struct Symbol {
    /// What it names.
    pub kind: SymbolKind,
    /// The flags, as they stand.
    pub flags: u32,
    /// The name, as UTF-8, where it stands with the symbol: always for a datum, never for a
    /// section, and for the other kinds unless it is UNDEFINED without EXPLICIT_NAME.
    pub name: Option<Name>,
    /// The index of the function, global, table or section, and of a datum's segment.
    pub index: u32,
    /// Where a datum begins in its segment, in bytes.
    pub offset: u32,
    /// How many bytes a datum has.
    pub size: u32,
}

/// Where a datum stands. All is 0 for one that is undefined.
#[derive(Clone, Copy)]
pub(crate) struct Extent {
    segment: u32,
    offset: u32,
    size: u32,
}

impl SymbolKind {
    /// The byte that spells the kind.
    pub fn code(self) -> u8
        ensures { result ≡ kind_code self }
    {
        match self {
            SymbolKind::Function => 0,
            SymbolKind::Datum => 1,
            SymbolKind::GlobalVar => 2,
            SymbolKind::Section => 3,
            SymbolKind::Table => 5,
        }
    }
}

/// The kind of a byte at this place. A tag is foreign.
fn kind_of(place: usize, byte: u8) -> Result<SymbolKind, Stop>
    ensures { result ≡ kind_of place byte }
{
    match byte {
        0 => Ok(SymbolKind::Function),
        1 => Ok(SymbolKind::Datum),
        2 => Ok(SymbolKind::GlobalVar),
        3 => Ok(SymbolKind::Section),
        4 => Err(Stop::Foreign(Item::TagSymbol)),
        5 => Ok(SymbolKind::Table),
        _ => Err(Stop::Broken(place)),
    }
}

/// The flags of a symbol that is linked, and the bytes after them. Others are foreign.
#[tactic(auto, unfolding(crate::specs::Reading::unless_at))]
fn symbol_flags_at(end: usize, bytes: &[u8]) -> Result<(u32, &[u8]), Stop>
    ensures { Reads (λ x. (x.0, x.1.now)) result (unless_at is_foreign_symbol items.SymbolFlags end bytes.now) }
{
    let (flags, rest) = u32_at(end, bytes)?;
    if is_foreign_symbol(flags) {
        return Err(Stop::Foreign(Item::SymbolFlags(flags)));
    }
    Ok((flags, rest))
}

/// A name, where one is present, and the bytes after it.
fn maybe_name_at(
    alloc: Global,
    present: bool,
    end: usize,
    bytes: &[u8],
) -> Result<(Option<Name>, &[u8]), ReadFault>
    ensures { Gives (λ x. (x.0, x.1.now)) result (maybe_name_at present end bytes.now) }
{
    if present {
        let (name, rest) = name_at(alloc, end, bytes)?;
        Ok((Some(name), rest))
    } else {
        Ok((None, bytes))
    }
}

/// Where a datum stands, if it is defined, and the bytes after that.
fn extent_at(defined: bool, end: usize, bytes: &[u8]) -> Result<(Extent, &[u8]), Stop>
    ensures { Reads (λ x. (x.0, x.1.now)) result (extent_at defined end bytes.now) }
{
    if defined {
        let (segment, rest) = u32_at(end, bytes)?;
        let (offset, rest) = u32_at(end, rest)?;
        let (size, rest) = u32_at(end, rest)?;
        let extent = Extent {
            segment,
            offset,
            size,
        };
        Ok((extent, rest))
    } else {
        let extent = Extent {
            segment: 0,
            offset: 0,
            size: 0,
        };
        Ok((extent, bytes))
    }
}

/// A function, global or table behind its flags, and the bytes after it.
#[tactic(auto, unfolding(crate::specs::Reading::indexed_at))]
fn indexed_at(
    alloc: Global,
    kind: SymbolKind,
    flags: u32,
    end: usize,
    bytes: &[u8],
) -> Result<(Symbol, &[u8]), ReadFault>
    ensures { Gives (λ x. (x.0, x.1.now)) result (indexed_at kind flags end bytes.now) }
{
    let (index, rest) = u32_at(end, bytes)?;
    let (name, rest) = maybe_name_at(alloc, is_named(flags), end, rest)?;
    let symbol = Symbol {
        kind,
        flags,
        name,
        index,
        offset: 0,
        size: 0,
    };
    Ok((symbol, rest))
}

/// A datum behind its flags, and the bytes after it.
#[tactic(auto, unfolding(crate::specs::Reading::datum_at))]
fn datum_at(
    alloc: Global,
    flags: u32,
    end: usize,
    bytes: &[u8],
) -> Result<(Symbol, &[u8]), ReadFault>
    ensures { Gives (λ x. (x.0, x.1.now)) result (datum_at flags end bytes.now) }
{
    let (name, rest) = name_at(alloc, end, bytes)?;
    let (extent, rest) = extent_at(flags & UNDEFINED == 0, end, rest)?;
    let symbol = Symbol {
        kind: SymbolKind::Datum,
        flags,
        name: Some(name),
        index: extent.segment,
        offset: extent.offset,
        size: extent.size,
    };
    Ok((symbol, rest))
}

/// A section's symbol behind its flags, and the bytes after it. It takes no memory.
#[tactic(auto, unfolding(crate::specs::Reading::section_symbol_at))]
fn section_symbol_at(flags: u32, end: usize, bytes: &[u8]) -> Result<(Symbol, &[u8]), Stop>
    ensures { Reads (λ x. (x.0, x.1.now)) result (section_symbol_at flags end bytes.now) }
{
    let (index, rest) = u32_at(end, bytes)?;
    let symbol = Symbol {
        kind: SymbolKind::Section,
        flags,
        name: None,
        index,
        offset: 0,
        size: 0,
    };
    Ok((symbol, rest))
}

/// A symbol of this kind behind its flags, and the bytes after it.
fn body_at(
    alloc: Global,
    kind: SymbolKind,
    flags: u32,
    end: usize,
    bytes: &[u8],
) -> Result<(Symbol, &[u8]), ReadFault>
    ensures { Gives (λ x. (x.0, x.1.now)) result (body_at kind flags end bytes.now) }
{
    match kind {
        SymbolKind::Datum => datum_at(alloc, flags, end, bytes),
        SymbolKind::Section => Ok(section_symbol_at(flags, end, bytes)?),
        SymbolKind::Function | SymbolKind::GlobalVar | SymbolKind::Table => {
            indexed_at(alloc, kind, flags, end, bytes)
        }
    }
}

/// The symbol at the front, and the bytes after it. A tag is foreign at its kind; flags that aren't
/// linked are foreign before what follows them is read.
#[tactic(auto, unfolding(crate::specs::Reading::symbol_at))]
pub fn symbol_at(alloc: Global, end: usize, bytes: &[u8]) -> Result<(Symbol, &[u8]), ReadFault>
    ensures { Gives (λ x. (x.0, x.1.now)) result (symbol_at end bytes.now) }
{
    let (byte, rest) = byte_at(end, bytes)?;
    let kind = kind_of(place(end, bytes), byte)?;
    let (flags, rest) = symbol_flags_at(end, rest)?;
    body_at(alloc, kind, flags, end, rest)
}

impl Form for Symbol {
    ghost use Rattle.linking_section.specs.ItemLaws.{symbol_reader};

    ghost spells = { SpellsSymbol };

    ghost read_at = { symbol_at };

    ghost exact = { symbol_reader };

    fn form_at(alloc: Global, end: usize, bytes: &[u8]) -> Result<(Symbol, &[u8]), ReadFault> {
        symbol_at(alloc, end, bytes)
    }
}
