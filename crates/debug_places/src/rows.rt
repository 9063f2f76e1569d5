//! Where the things are that symbols mean: a list for each object, with a place for each symbol.
ghost use Rattle.std.specs.Prelude.{◌≡◌, ◌==◌, take, drop, IfOk};
ghost use Rattle.link_program.specs.linking_section.Flags.{kind_code};
ghost use Rattle.debug_places.specs.Seen.{seen, address_meant, slot_meant, linkers_global, global_here, global_meant, place_meant, row_by, rows_by};

use crate::addresses::address_at;
use found_numbers::{global_at, slot_at};
use link_layout::{Layout, Numbering, made_import};
use link_program::{
    Definition, FunctionKey, GlobalKey, Lead, Object, Symbol, function_of, mode_of,
};
use linking_section::SymbolKind;
use made_symbols::Mode;
use std::alloc::Global;
use wl_base::{OutOfMemory, Seq};

/// What is looked up of a link, by reference.
#[derive(Clone, Copy)]
pub(crate) struct View<'a> {
    pub layout: Layout<'a>,
    /// The addresses of the linker's own data.
    pub made: &'a [u64],
    /// Of each part whether it is live.
    pub live: &'a [bool],
}

/// Which place of a symbol is asked for.
#[derive(Clone, Copy)]
pub(crate) enum Asked {
    Address,
    Slot,
    Global,
}

fn is_of(kind: SymbolKind, other: SymbolKind) -> bool
    ensures { result ≡ (kind_code kind == kind_code other) }
{
    kind.code() == other.code()
}

/// The address of the datum that is meant.
fn address_meant(view: View<'_>, lead: Lead) -> Option<u64>
    ensures { result ≡ address_meant (seen view.entry) lead }
{
    match lead {
        Lead::Here(definition) => {
            if is_of(definition.kind, SymbolKind::Datum) {
                address_at(view, definition)
            } else {
                None
            }
        }
        Lead::Import(_) | Lead::Null | Lead::Nothing => None,
    }
}

/// The slot of the function that is meant.
fn slot_meant(numbering: &Numbering, lead: Lead) -> Option<u32>
    ensures { result ≡ slot_meant numbering.now lead }
{
    match lead {
        Lead::Here(definition) => {
            if is_of(definition.kind, SymbolKind::Function) {
                slot_at(numbering, function_of(definition))
            } else {
                None
            }
        }
        Lead::Import(number) => slot_at(numbering, FunctionKey::Import(number)),
        Lead::Null | Lead::Nothing => None,
    }
}

/// The number of a global of the linker, by that of its symbol. In a shared output it is an import.
fn linkers_global(view: View<'_>, mode: Mode, number: u32) -> Option<u32>
    ensures { result ≡ linkers_global (seen view.entry) mode number }
{
    match mode {
        Mode::Plain => {
            let key = GlobalKey::Own {
                input: 0,
                index: number,
            };
            global_at(view.layout.numbering, key)
        }
        Mode::Shared => match made_import(view.layout.program.resolution, number) {
            Some(import) => global_at(view.layout.numbering, GlobalKey::Import(import)),
            None => None,
        },
    }
}

/// The number of the global that is defined.
fn global_here(view: View<'_>, definition: Definition) -> Option<u32>
    ensures { result ≡ global_here (seen view.entry) definition }
{
    if definition.input == 0 {
        let mode = mode_of(view.layout.program.plan);
        return linkers_global(view, mode, definition.place);
    }
    let key = GlobalKey::Own {
        input: definition.input,
        index: definition.index,
    };
    global_at(view.layout.numbering, key)
}

/// The number of the global that is meant.
fn global_meant(view: View<'_>, lead: Lead) -> Option<u32>
    ensures { result ≡ global_meant (seen view.entry) lead }
{
    match lead {
        Lead::Here(definition) => {
            if is_of(definition.kind, SymbolKind::GlobalVar) {
                global_here(view, definition)
            } else {
                None
            }
        }
        Lead::Import(number) => global_at(view.layout.numbering, GlobalKey::Import(number)),
        Lead::Null | Lead::Nothing => None,
    }
}

fn widened(place: Option<u32>) -> Option<u64>
    ensures { result ≡ place }
{
    match place {
        Some(n) => Some(u64::from(n)),
        None => None,
    }
}

/// The same number in 32 bits. One of 2^32 and more is answered as want of memory.
pub(crate) fn narrowed(place: Option<u64>) -> Result<Option<u32>, OutOfMemory>
    ensures { IfOk result (λ p. p ≡ place) }
{
    match place {
        Some(n) => match u32::try_from(n) {
            Ok(n) => Ok(Some(n)),
            Err(_) => Err(OutOfMemory),
        },
        None => Ok(None),
    }
}

/// The place of what is meant.
fn place_meant(view: View<'_>, asked: Asked, lead: Lead) -> Option<u64>
    ensures { result ≡ place_meant (seen view.entry) asked lead }
{
    match asked {
        Asked::Address => address_meant(view, lead),
        Asked::Slot => widened(slot_meant(view.layout.numbering, lead)),
        Asked::Global => widened(global_meant(view, lead)),
    }
}

/// The places of these symbols.
fn row(
    alloc: Global,
    view: View<'_>,
    asked: Asked,
    symbols: &[Symbol],
) -> Result<Seq<Option<u32>>, OutOfMemory>
    ensures { IfOk result (λ row. row ≡ row_by (place_meant (seen view.entry) asked) symbols.now) }
{
    let mut row = Seq::with_room(alloc, symbols.len())?;
    for symbol in symbols {
        let place = narrowed(place_meant(view, asked, symbol.lead))?;
        row.push(place)?;
    }
    Ok(row)
}

/// So many symbols, or all where there are fewer.
fn first_of(symbols: &[Symbol], count: usize) -> &[Symbol]
    ensures { result.now ≡ take count symbols.now }
{
    &symbols[..symbols.len().min(count)]
}

/// Those behind them.
fn behind(symbols: &[Symbol], count: usize) -> &[Symbol]
    ensures { result.now ≡ drop count symbols.now }
{
    &symbols[symbols.len().min(count)..]
}

/// The places of the symbols of objects, which stand one object behind another.
pub(crate) fn rows(
    alloc: Global,
    view: View<'_>,
    asked: Asked,
    objects: &[Object],
    symbols: &[Symbol],
) -> Result<Seq<Seq<Option<u32>>>, OutOfMemory>
    ensures { IfOk result (λ rows. rows ≡ rows_by (place_meant (seen view.entry) asked) objects.now symbols.now) }
{
    let mut rows = Seq::with_room(alloc, objects.len())?;
    let mut left = symbols;
    for o in objects {
        let count = o.symbols.len();
        rows.push(row(alloc, view, asked, first_of(left, count))?)?;
        left = behind(left, count);
    }
    Ok(rows)
}
