//! Which symbols stand in the object, and their numbers there.
ghost use Rattle.std.specs.Prelude.{◌≡◌, [], Some, None, false, unwrap_or, map, option_map, fold, length, slice_index_or, IfOk, OnOk};
ghost use Rattle.std.specs.Option.{option_or};
ghost use Rattle.link_program.specs.name_entries.View.{rows_of, entry_at};
ghost use Rattle.link_program.specs.name_entries.Fits.{FitsObjects};
ghost use Rattle.partial_symbols.specs.declared.facts.Fact.{Fact as Seen};
ghost use Rattle.partial_symbols.specs.Columns.{changed_at};
ghost use Rattle.partial_symbols.specs.Facts.{fact_of, facts_of};
ghost use Rattle.partial_symbols.specs.Standing.{is_at, column_at, is_referenced, stands_for, stands, none_stood, with_number, without_number, stood, all_stood};
ghost use Rattle.partial_symbols.specs.Sights.{sight_of};
ghost use Rattle.partial_symbols.specs.Known.{IsSight, AreStanding};
ghost use Rattle.partial_symbols.specs.Referring.{number_by_name, number_for};
ghost use Rattle.link_program.specs.link_rules.Program.{Program as Rules};
ghost use Rattle.link_program.specs.made_symbols.declared.mode.Mode.TheVariants.{Plain};
ghost use Rattle.link_program.specs.Program.{IsProgramOf};

use crate::columns::{Column, columns_of};
use crate::facts::{At, Fact, Spot, fact_at};
use crate::windows::named_by;
use crate::winners::winners_of;
use link_program::{Entries, Program, Symbol, Tables, symbol_at};
use linking_section::SymbolKind;
use std::alloc::Global;
use std::marker::Model;
use wl_base::{OutOfMemory, Seq};

/// What is known of names, by number.
#[derive(Drop)]
pub struct Sight {
    winners: Vec<Option<Spot>>,
    columns: Vec<Column>,
    named: Vec<bool>,
}

impl Model for Sight {
    ghost use Rattle.partial_symbols.specs.Standing.{Sight as Seen};

    ghost Value = { Seen };

    ghost view = { λ v. record { winners = v.winners.items; columns = v.columns.items; named = v.named.items } };
}

/// The symbols that stand in the object.
#[derive(Drop)]
pub struct Standing {
    symbols: Seq<At>,
    of_symbols: Vec<Option<u32>>,
    of_names: Vec<Option<u32>>,
}

impl Model for Standing {
    ghost use Rattle.partial_symbols.specs.Standing.{Stood};

    ghost Value = { Stood };

    ghost view = { λ s. record { symbols = s.symbols; of_symbols = s.of_symbols.items; of_names = s.of_names.items } };
}

/// Whether a symbol stands at this place.
fn is_at(fact: Fact, spot: Option<Spot>) -> bool
    ensures { result ≡ is_at fact spot }
{
    match spot {
        Some(spot) => fact.input == spot.input && fact.place == spot.place,
        None => false,
    }
}

impl Sight {
    /// The winner of the name of a number, where an object defines it.
    pub fn winner(&self, number: u32) -> Option<Spot>
        ensures { result ≡ slice_index_or self.now.winners number None }
    {
        match self.winners.get(number as usize) {
            Some(winner) => *winner,
            None => None,
        }
    }

    /// What entries tell of the name of a number.
    pub fn column(&self, number: u32) -> Column
        ensures { result ≡ column_at self.now number }
    {
        match self.columns.get(number as usize) {
            Some(column) => *column,
            None => Column::empty(),
        }
    }

    /// Whether a window names the name of a number.
    fn is_named(&self, number: u32) -> bool
        ensures { result ≡ slice_index_or self.now.named number false }
    {
        match self.named.get(number as usize) {
            Some(flag) => *flag,
            None => false,
        }
    }

    /// Whether anything refers to the name of a number.
    fn is_referenced(&self, number: u32) -> bool
        ensures { result ≡ is_referenced self.now number }
    {
        self.column(number).referenced || self.is_named(number)
    }

    /// Whether an entry of the name of a number stands for it.
    fn stands_for(&self, fact: Fact, number: u32) -> bool
        ensures { result ≡ stands_for self.now fact number (slice_index_or self.now.winners number None) }
    {
        match self.winner(number) {
            Some(winner) => is_at(fact, Some(winner)),
            None => is_at(fact, self.column(number).least) && self.is_referenced(number),
        }
    }

    /// Whether a symbol stands in the object.
    fn stands(&self, fact: Fact) -> bool
        ensures { result ≡ stands self.now fact }
    {
        match fact.number {
            Some(number) => self.stands_for(fact, number),
            None => fact.defines && fact.kind.code() != SymbolKind::Section.code(),
        }
    }
}

/// Gives a name the number of its symbol, unless it has one.
fn name_at(numbers: &mut [Option<u32>], name: Option<u32>, number: u32)
    ensures { numbers.new ≡ changed_at None (λ o. option_or o (Some number)) numbers.old name }
{
    let Some(at) = name else {
        return;
    };
    let at = at as usize;
    if at < numbers.len() {
        numbers[at] = or_number(numbers[at], number);
    }
}

/// The first, or else the second.
fn or_number(first: Option<u32>, second: u32) -> Option<u32>
    ensures { result ≡ option_or first (Some second) }
{
    match first {
        Some(number) => Some(number),
        None => Some(second),
    }
}

impl Standing {
    /// None, of so many names.
    fn new(alloc: Global, names: usize) -> Result<Standing, OutOfMemory>
        ensures { IfOk result (λ s. s ≡ none_stood names) }
    {
        Ok(Standing {
            symbols: Seq::new(alloc),
            of_symbols: Vec::new(alloc),
            of_names: vec![in alloc; None; names]?,
        })
    }

    /// One symbol more, that stands there.
    fn put(&mut self, fact: Fact) -> Result<(), OutOfMemory>
        ensures { OnOk result (self.new ≡ with_number self.old fact (length self.old.symbols)) }
    {
        let Ok(number) = u32::try_from(self.symbols.len()) else {
            return Err(OutOfMemory);
        };
        self.symbols.push(At {
            object: fact.object,
            place: fact.place,
        })?;
        self.of_symbols.push(Some(number))?;
        name_at(self.of_names.as_mut_slice(), fact.number, number);
        Ok(())
    }

    /// One symbol more, that doesn't.
    fn pass(&mut self) -> Result<(), OutOfMemory>
        ensures { OnOk result (self.new ≡ without_number self.old) }
    {
        self.of_symbols.push(None)?;
        Ok(())
    }

    /// One symbol more.
    fn add(&mut self, sight: &Sight, fact: Fact) -> Result<(), OutOfMemory>
        ensures { OnOk result (self.new ≡ stood sight.now self.old fact) }
    {
        if sight.stands(fact) {
            self.put(fact)
        } else {
            self.pass()
        }
    }
}

impl Standing {
    /// Where they stand, in their order.
    pub fn symbols(&self) -> &[At]
        ensures { result.now ≡ self.now.symbols }
    {
        self.symbols.as_slice()
    }

    /// The number of the symbol that stands for the name of a number, or 0.
    fn of_name(&self, number: u32) -> u32
        ensures { result ≡ unwrap_or (slice_index_or self.now.of_names number None) 0 }
    {
        match self.of_names.get(number as usize) {
            Some(number) => number.unwrap_or(0),
            None => 0,
        }
    }

    /// The own number of the symbol at a place among those of all objects, or 0.
    fn of_symbol(&self, symbol: u32) -> u32
        ensures { result ≡ unwrap_or (slice_index_or self.now.of_symbols symbol None) 0 }
    {
        match self.of_symbols.get(symbol as usize) {
            Some(number) => number.unwrap_or(0),
            None => 0,
        }
    }

    /// The number of the symbol that stands for an entry of a name, or for the symbol at a place among those of all objects that has no
    /// name; 0 where none stands.
    pub fn number_by(&self, name: Option<u32>, symbol: u32) -> u32
        ensures { result ≡ number_by_name self.now symbol name }
    {
        match name {
            Some(name) => self.of_name(name),
            None => self.of_symbol(symbol),
        }
    }

    /// The number of the symbol that stands for the one at a place among those of all objects: that of its name, or its own; 0 where
    /// none stands.
    pub fn number_for(&self, symbols: &[Symbol], symbol: u32) -> u32
        ensures { result ≡ number_for self.now symbols.now symbol }
    {
        self.number_by(symbol_at(symbols, symbol).name, symbol)
    }
}

/// Adds the symbol at a place.
fn add_at(
    standing: &mut Standing,
    sight: &Sight,
    entries: Entries<'_>,
    object: u32,
    place: u32,
) -> Result<(), OutOfMemory>
    requires { FitsObjects entries }
    ensures { OnOk result ((f : Seen) → Some f ≡ option_map (fact_of entries.entry.names.now.names object) (entry_at entries.entry.objects.now object place) → standing.new ≡ stood sight.now standing.old f) }
{
    match fact_at(entries, object, place) {
        Some(fact) => standing.add(sight, fact),
        None => Ok(()),
    }
}

/// Adds the symbols of an object.
fn add_object(
    standing: &mut Standing,
    sight: &Sight,
    entries: Entries<'_>,
    object: u32,
) -> Result<(), OutOfMemory>
    requires { FitsObjects entries }
    ensures { OnOk result (standing.new ≡ fold (stood sight.now) standing.old (map (fact_of entries.entry.names.now.names object) (slice_index_or (rows_of entries.entry.objects.now) object []))) }
{
    for place in 0..entries.symbols(object) {
        add_at(standing, sight, entries, object, place)?;
    }
    Ok(())
}

/// What is known of names, by these tables.
fn sight_in(alloc: Global, tables: &Tables, entries: Entries<'_>) -> Result<Sight, OutOfMemory>
    requires { FitsObjects entries }
    ensures { IfOk result (λ v. v ≡ sight_of tables.now entries.entry.names.now.names entries.entry.objects.now) }
{
    let names = entries.names.count() as usize;
    let winners = winners_of(alloc, tables.winners.as_slice(), names)?;
    let columns = columns_of(alloc, entries)?;
    let named = named_by(alloc, tables.symbols.as_slice(), &tables.named, names)?;
    Ok(Sight {
        winners,
        columns,
        named,
    })
}

/// The symbols that stand in the object, by what is known of names.
fn standing_in(alloc: Global, sight: &Sight, entries: Entries<'_>) -> Result<Standing, OutOfMemory>
    requires { FitsObjects entries }
    ensures { IfOk result (λ s. s ≡ all_stood sight.now (length entries.entry.names.now.names) (facts_of entries.entry.names.now.names entries.entry.objects.now)) }
{
    let mut standing = Standing::new(alloc, entries.names.count() as usize)?;
    for object in 0..entries.count() {
        add_object(&mut standing, sight, entries, object)?;
    }
    Ok(standing)
}

/// What is known of the names of a program, by their numbers. `entries` is the view of its objects.
pub fn sight_of(
    alloc: Global,
    program: Program<'_>,
    entries: Entries<'_>,
) -> Result<Sight, OutOfMemory>
    requires fits { FitsObjects entries }
    requires objects { entries.objects.now ≡ program.objects.now }
    requires names { entries.names.now ≡ program.names.now }
    ensures { IfOk result (λ v. (p : Rules) → IsProgramOf Plain program.entry p → IsSight p program.entry.names.now.names v) }
{
    let sight = sight_in(alloc, program.tables, entries)?;
    Ok(sight)
}

/// The symbols that stand in the object that a partial link makes of a program, and their numbers there. `entries` is the view of its
/// objects.
pub fn standing_of(
    alloc: Global,
    program: Program<'_>,
    entries: Entries<'_>,
    sight: &Sight,
) -> Result<Standing, OutOfMemory>
    requires fits { FitsObjects entries }
    requires objects { entries.objects.now ≡ program.objects.now }
    requires names { entries.names.now ≡ program.names.now }
    ensures { IfOk result (λ s. (p : Rules) → IsProgramOf Plain program.entry p → IsSight p program.entry.names.now.names sight.now → AreStanding p program.entry.names.now.names s) }
{
    let standing = standing_in(alloc, sight, entries)?;
    Ok(standing)
}
