//! Relocations and the sections that they are for.
ghost use Rattle.std.specs.Prelude.{◌≡◌, ◌≤◌, nat_eq, map, slice_get, IfOk};
ghost use Rattle.std.specs.List.{list_all};
ghost use Rattle.object_rules.specs.Differ.{all_differ};
ghost use Rattle.object_rules.specs.Spaces.{ArePlaces};
ghost use Rattle.object_rules.specs.Symbols.{name_of};
ghost use Rattle.object_rules.specs.Relocs.{target_stands, lie_apart, payload_len, width_in, windows_lie, targets_stand, may_name, is_table_name, names_symbol, entry_stands, entries_stand};

use crate::differ::numbers_differ;
use crate::names::name_of;
use crate::spaces::{Counts, ImportPlaces};
use object_parts::{Import, Reloc, RelocSection, SectionSpan, Symbol, SymbolKind, has_id, kinds};
use std::alloc::Global;
use wl_base::{OutOfMemory, Seq};

/// Whether the target is the code section, the data section or a custom section.
fn target_stands(all: &[SectionSpan], relocs: &RelocSection) -> bool
    ensures { result ≡ target_stands all.now relocs.now }
{
    has_id(10, all, relocs.target)
        || has_id(11, all, relocs.target)
        || has_id(0, all, relocs.target)
}

fn all_targets_stand(all: &[SectionSpan], relocs: &[RelocSection]) -> bool
    ensures { result ≡ list_all (target_stands all.now) relocs.now }
{
    relocs.iter().all(|section| target_stands(all, section))
}

fn targets_of(alloc: Global, relocs: &[RelocSection]) -> Result<Seq<u64>, OutOfMemory>
    ensures { IfOk result (λ targets. targets ≡ map (λ r. r.target) relocs.now) }
{
    let mut targets = Seq::new(alloc);
    for section in relocs {
        targets.push(u64::from(section.target))?;
    }
    Ok(targets)
}

/// Whether windows of this width, in bytes, rise, don't overlap, and lie in a payload of this
/// length.
fn lie_apart(width: u64, len: u64, relocs: &[Reloc]) -> bool
    requires { width ≤ 5 }
    ensures { result ≡ lie_apart width len 0 relocs.now }
{
    let mut from = 0;
    for reloc in relocs {
        let offset = u64::from(reloc.offset);
        if offset < from || len < offset + width {
            return false;
        }
        from = offset + width;
    }
    true
}

fn payload_len(all: &[SectionSpan], target: u32) -> u64
    ensures { result ≡ payload_len (slice_get all.now target) }
{
    match all.get(target as usize) {
        None => 0,
        Some(section) => section.payload.len,
    }
}

/// How many bytes a window has.
fn width_in(all: &[SectionSpan], target: u32) -> u64
    ensures value { result ≡ width_in all.now target }
    ensures few { result ≤ 5 }
{
    if has_id(10, all, target) { 5 } else { 4 }
}

fn windows_lie(all: &[SectionSpan], relocs: &RelocSection) -> bool
    ensures { result ≡ windows_lie all.now relocs.now }
{
    let width = width_in(all, relocs.target);
    let len = payload_len(all, relocs.target);
    lie_apart(width, len, relocs.entries.as_slice())
}

fn all_windows_lie(all: &[SectionSpan], relocs: &[RelocSection]) -> bool
    ensures { result ≡ list_all (windows_lie all.now) relocs.now }
{
    relocs.iter().all(|section| windows_lie(all, section))
}

/// Whether relocations are for the code, the data or a custom section, each for another, and their
/// windows lie in it, apart from one another.
pub fn targets_stand(
    alloc: Global,
    all: &[SectionSpan],
    relocs: &[RelocSection],
) -> Result<bool, OutOfMemory>
    ensures { IfOk result (λ stand. stand ≡ targets_stand all.now relocs.now) }
{
    let targets = targets_of(alloc, relocs)?;
    Ok(
        all_targets_stand(all, relocs)
            && numbers_differ(alloc, targets.as_slice())?
            && all_windows_lie(all, relocs),
    )
}

/// Whether a relocation of this type may name a symbol of this kind.
fn may_name(reloc: u8, kind: SymbolKind) -> bool
    ensures { result ≡ may_name reloc kind }
{
    match kind {
        SymbolKind::Function => matches!(
            reloc,
            kinds::FUNCTION_INDEX_LEB
                | kinds::TABLE_INDEX_SLEB
                | kinds::TABLE_INDEX_I32
                | kinds::GLOBAL_INDEX_LEB
                | kinds::FUNCTION_OFFSET_I32
                | kinds::TABLE_INDEX_REL_SLEB
        ),
        SymbolKind::Datum => matches!(
            reloc,
            kinds::MEMORY_ADDR_LEB
                | kinds::MEMORY_ADDR_SLEB
                | kinds::MEMORY_ADDR_I32
                | kinds::GLOBAL_INDEX_LEB
                | kinds::MEMORY_ADDR_REL_SLEB
        ),
        SymbolKind::GlobalVar => {
            matches!(reloc, kinds::GLOBAL_INDEX_LEB | kinds::GLOBAL_INDEX_I32)
        }
        SymbolKind::Section => reloc == kinds::SECTION_OFFSET_I32,
        SymbolKind::Table => reloc == kinds::TABLE_NUMBER_LEB,
    }
}

/// Whether the symbol has the name of the table of functions.
fn has_table_name(imports: &[Import], places: &ImportPlaces, symbol: &Symbol) -> bool
    requires { ArePlaces imports.now places.now }
    ensures { result ≡ is_table_name (name_of imports.now symbol.now) }
{
    match name_of(imports, places, symbol) {
        None => false,
        Some(name) => name == b"__indirect_function_table".as_slice(),
    }
}

fn names_symbol(
    imports: &[Import],
    places: &ImportPlaces,
    symbols: &[Symbol],
    reloc: &Reloc,
) -> bool
    requires { ArePlaces imports.now places.now }
    ensures { result ≡ names_symbol imports.now reloc.now.kind (slice_get symbols.now reloc.now.index) }
{
    match symbols.get(reloc.index as usize) {
        None => false,
        Some(symbol) => {
            may_name(reloc.kind, symbol.kind)
                && (reloc.kind != kinds::TABLE_NUMBER_LEB
                    || has_table_name(imports, places, symbol))
        }
    }
}

fn entry_stands(
    counts: &Counts,
    imports: &[Import],
    places: &ImportPlaces,
    symbols: &[Symbol],
    reloc: &Reloc,
) -> bool
    requires { ArePlaces imports.now places.now }
    ensures { result ≡ entry_stands counts.now imports.now symbols.now reloc.now }
{
    if reloc.kind == kinds::TYPE_INDEX_LEB {
        (reloc.index as usize) < counts.types
    } else {
        names_symbol(imports, places, symbols, reloc)
    }
}

fn section_stands(
    counts: &Counts,
    imports: &[Import],
    places: &ImportPlaces,
    symbols: &[Symbol],
    relocs: &[Reloc],
) -> bool
    requires { ArePlaces imports.now places.now }
    ensures { result ≡ list_all (entry_stands counts.now imports.now symbols.now) relocs.now }
{
    relocs.iter().all(|reloc| entry_stands(counts, imports, places, symbols, reloc))
}

/// Whether each relocation names what its type names. `places` are those of the imports.
pub fn entries_stand(
    counts: &Counts,
    imports: &[Import],
    places: &ImportPlaces,
    symbols: &[Symbol],
    relocs: &[RelocSection],
) -> bool
    requires { ArePlaces imports.now places.now }
    ensures { result ≡ entries_stand counts.now imports.now symbols.now relocs.now }
{
    relocs.iter().all(|section| section_stands(
        counts,
        imports,
        places,
        symbols,
        section.entries.as_slice(),
    ))
}
