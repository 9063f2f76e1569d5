//! How names are given numbers: each is looked up once.
ghost use Rattle.std.specs.Prelude.{◌∷◌, [], Some, map, flat_map};
ghost use Rattle.made_symbols.specs.Made.{made};
ghost use Rattle.object_file.specs.object_columns.Seen.{symbol_seen};
ghost use Rattle.link_names.specs.Numbered.{number_seen, numbers_seen, symbol_number, Short, AllShort};
ghost use Rattle.link_names.specs.Interning.{Room, Takes, Tells, TellsAll, IsNumber, Keeps, one, entry_name, names_in, made_name, made_number, group_name, group_number, groups_in, symbols_numbered, groups_numbered};

use crate::names::NONE;
use made_symbols::Mode;
use object_file::{Group, Object, SymbolRef, Symbols};
use std::alloc::Global;
use wl_base::{Name, NameFault, NameTable, OutOfMemory};
use wl_lists::Lists;

/// Gives a name its number.
fn number(table: &mut NameTable, name: &[u8]) -> Result<u32, NameFault>
    requires { Room table.old }
    ensures { Takes (IsNumber name.now) result table.old table.new (one name.now) }
{
    table.intern(name)
}

/// Gives the name of a symbol its number, where the symbol is an entry of it.
fn symbol_number(table: &mut NameTable, symbol: SymbolRef<'_>) -> Result<u32, NameFault>
    requires { Room table.old }
    ensures { Takes (Tells symbol_number number_seen (symbol_seen symbol.entry)) result table.old table.new (entry_name (symbol_seen symbol.entry)) }
{
    if symbol.is_local_definition() {
        return Ok(NONE);
    }
    match symbol.name {
        Some(name) => number(table, name),
        None => Ok(NONE),
    }
}

/// The numbers of an object's symbols.
fn symbol_numbers(
    alloc: Global,
    table: &mut NameTable,
    symbols: &Symbols,
) -> Result<Vec<u32>, NameFault>
    requires { Room table.old }
    ensures { Takes (λ names numbers. TellsAll symbol_number number_seen symbols.now names numbers.items × Short numbers.items) result table.old table.new (flat_map entry_name symbols.now) }
{
    if symbols.len() > u32::MAX as usize {
        return Err(NameFault::OutOfMemory);
    }
    let Ok(mut numbers) = Vec::with_capacity(alloc, symbols.len()) else {
        return Err(NameFault::OutOfMemory);
    };
    for place in 0..symbols.len() {
        if let Some(symbol) = symbols.get(place) {
            numbers.push(symbol_number(table, symbol)?)?;
        }
    }
    Ok(numbers)
}

/// The numbers of the symbols of all objects.
pub(crate) fn symbol_lists(
    alloc: Global,
    table: &mut NameTable,
    objects: &[Object],
) -> Result<Lists<u32>, NameFault>
    requires { Room table.old }
    ensures { Takes (λ names lists. TellsAll symbols_numbered numbers_seen objects.now names lists × AllShort lists) result table.old table.new (flat_map names_in objects.now) }
{
    let mut lists = Lists::new(alloc);
    for object in objects {
        let numbers = symbol_numbers(alloc, table, &object.symbols)?;
        kept(lists.push(&numbers))?;
    }
    Ok(lists)
}

/// The numbers of an object's groups.
fn group_numbers(
    alloc: Global,
    table: &mut NameTable,
    groups: &[Group],
) -> Result<Vec<u32>, NameFault>
    requires { Room table.old }
    ensures { Takes (λ names numbers. TellsAll group_number (λ n. Some n) groups.now names numbers.items × Short numbers.items) result table.old table.new (flat_map group_name groups.now) }
{
    if groups.len() > u32::MAX as usize {
        return Err(NameFault::OutOfMemory);
    }
    let mut numbers = Vec::new(alloc);
    for group in groups {
        numbers.push(number(table, group.name.as_slice())?)?;
    }
    Ok(numbers)
}

/// The numbers of the groups of all objects.
pub(crate) fn group_lists(
    alloc: Global,
    table: &mut NameTable,
    objects: &[Object],
) -> Result<Lists<u32>, NameFault>
    requires { Room table.old }
    ensures { Takes (λ names lists. TellsAll groups_numbered (map (λ n. Some n)) objects.now names lists × AllShort lists) result table.old table.new (flat_map groups_in objects.now) }
{
    let mut lists = Lists::new(alloc);
    for object in objects {
        let numbers = group_numbers(alloc, table, object.groups.as_slice())?;
        kept(lists.push(&numbers))?;
    }
    Ok(lists)
}

/// The numbers of the linker-made names.
pub(crate) fn made_numbers(
    alloc: Global,
    table: &mut NameTable,
    mode: Mode,
) -> Result<Vec<u32>, NameFault>
    requires { Room table.old }
    ensures { Takes (λ names numbers. TellsAll made_number (λ n. Some n) (made mode) names numbers.items) result table.old table.new (flat_map made_name (made mode)) }
{
    let mut numbers = Vec::new(alloc);
    for k in 0..made_symbols::count(mode) {
        numbers.push(number(table, made_symbols::name(mode, k))?)?;
    }
    Ok(numbers)
}

/// Gives the words' names their numbers.
pub(crate) fn add_words(table: &mut NameTable, words: &[Name]) -> Result<(), NameFault>
    requires { Room table.old }
    ensures { Takes (λ names nothing. Unit {0}) result table.old table.new (flat_map one words.now) }
{
    for word in words {
        number(table, word.as_slice())?;
    }
    Ok(())
}

/// Want of memory for a list of numbers.
fn kept(pushed: Result<(), OutOfMemory>) -> Result<(), NameFault>
    ensures { Keeps pushed result }
{
    match pushed {
        Ok(()) => Ok(()),
        Err(OutOfMemory) => Err(NameFault::OutOfMemory),
    }
}
