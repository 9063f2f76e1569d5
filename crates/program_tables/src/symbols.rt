//! The symbols of all objects.
ghost use Rattle.std.specs.Prelude.{◌≡◌, ◌++◌, ◌<◌, ◌^◌, [], Some, IsSome, length, map, flat_map, slice_index_or, OnOk, IfOk};
ghost use Rattle.link_program.specs.name_rules.Entries.{InputSymbol};
ghost use Rattle.link_program.specs.name_entries.View.{rows_of, entry_at};
ghost use Rattle.link_program.specs.name_entries.Fits.{FitsObjects};
ghost use Rattle.program_tables.specs.Leads.{lead_from, IsThere};
ghost use Rattle.program_tables.specs.Objects.{ArePlaces};
ghost use Rattle.program_tables.specs.Symbols.{AreSources, symbol_of, symbols_of, starts};

use crate::definitions::{definition_at, made_definition};
use link_program::{Entries, Lead, Meaning, Mode, Resolution, Symbol};
use std::alloc::Global;
use wl_base::{OutOfMemory, Seq};

/// What symbols are looked up in.
#[derive(Clone, Copy)]
pub(crate) struct Sources<'a> {
    pub(crate) entries: Entries<'a>,
    pub(crate) mode: Mode,
    pub(crate) resolution: &'a Resolution,
    /// The places of the objects by their inputs.
    pub(crate) places: &'a [u32],
}

/// The symbols of all objects, one object behind another, and behind them the variants; and where those of each object begin.
#[derive(Drop)]
pub(crate) struct AllSymbols {
    pub(crate) symbols: Seq<Symbol>,
    pub(crate) firsts: Seq<u32>,
}

/// What a symbol of this meaning leads to.
fn lead_of(entries: Entries<'_>, places: &[u32], mode: Mode, meaning: Meaning) -> Lead
    requires fits { FitsObjects entries }
    requires places { ArePlaces entries.objects.now places.now }
    requires there { IsThere mode entries.objects.now meaning }
    ensures { result ≡ lead_from mode entries.entry.objects.now meaning }
{
    match meaning {
        Meaning::Here { input, symbol } => {
            Lead::Here(definition_at(entries, places[input as usize], symbol))
        }
        Meaning::Made(number) => Lead::Here(made_definition(mode, number)),
        Meaning::Import(number) => Lead::Import(number),
        Meaning::Null => Lead::Null,
        Meaning::Nothing => Lead::Nothing,
    }
}

/// The symbol at a place of an object, by the object's place.
fn symbol_at(sources: Sources<'_>, object: u32, place: u32) -> Symbol
    requires sources { AreSources sources }
    requires there { IsSome (entry_at sources.entries.objects.now object place) }
    ensures { (e : InputSymbol) → entry_at sources.entry.entries.objects.now object place ≡ Some e → result ≡ symbol_of sources.entry e }
{
    let Some(entry) = sources.entries.entry(object, place) else {
        unreachable!()
    };
    let meaning = sources.resolution.meaning(entry.input, place);
    Symbol {
        kind: entry.symbol.kind,
        name: entry.number,
        lead: lead_of(sources.entries, sources.places, sources.mode, meaning),
    }
}

/// Puts the symbols of an object at the end.
fn add_symbols(
    symbols: &mut Seq<Symbol>,
    sources: Sources<'_>,
    object: u32,
) -> Result<(), OutOfMemory>
    requires { AreSources sources }
    ensures { OnOk result (symbols.new ≡ symbols.old
        ++ map (symbol_of sources.entry) (slice_index_or (rows_of sources.entry.entries.objects.now) object [])) }
{
    for place in 0..sources.entries.symbols(object) {
        symbols.push(symbol_at(sources, object, place))?;
    }
    Ok(())
}

/// The number that the next of these symbols gets.
fn next_number(symbols: &Seq<Symbol>) -> Result<u32, OutOfMemory>
    ensures { IfOk result (λ number. number ≡ length symbols.now) }
{
    match u32::try_from(symbols.len()) {
        Ok(number) => Ok(number),
        Err(_) => Err(OutOfMemory),
    }
}

/// The symbols of all objects, and behind them those of variants; 2^32 of them or more are answered as want of memory.
pub(crate) fn all_symbols(
    alloc: Global,
    sources: Sources<'_>,
    variants: &[Symbol],
) -> Result<AllSymbols, OutOfMemory>
    requires { AreSources sources }
    ensures symbols { IfOk result (λ all. all.symbols ≡ symbols_of sources.entry ++ variants.now) }
    ensures firsts { IfOk result (λ all. all.firsts ≡ starts 0 (rows_of sources.entry.entries.objects.now)) }
    ensures few { IfOk result (λ all. length all.symbols < 2 ^ 32) }
{
    let mut symbols = Seq::new(alloc);
    let mut firsts = Seq::new(alloc);
    for object in 0..sources.entries.count() {
        firsts.push(next_number(&symbols)?)?;
        add_symbols(&mut symbols, sources, object)?;
    }
    symbols.extend_from_slice(variants)?;
    next_number(&symbols)?;
    Ok(AllSymbols { symbols, firsts })
}
