//! Inputs by name.
ghost use Rattle.std.specs.Prelude.{◌≡◌, ℕ, List, Some, OnOk, cond, option_copied, option_and_then, slice_get, length};
ghost use Rattle.std.specs.Map.{lookup};
ghost use Rattle.std.specs.Str.{bytes_eq};
ghost use Rattle.object_file.specs.wl_base.Choice.{has_name};
ghost use Rattle.lib_index.specs.Table.{shown};
ghost use Rattle.object_file.specs.linking_section.Flags.{is_definition, is_strong_reference};
ghost use Rattle.lib_rounds.specs.Held.{name_if};
ghost use Rattle.round_rules.specs.Rounds.{defined_names};

use indexmap::IndexMap;
use object_file::Object;
use std::alloc::Global;
use wl_base::{InputId, Key, KeyRef, OutOfMemory};

/// An input for each of some names.
pub type Table = IndexMap<Key, InputId>;

/// The input of the name.
pub fn input_of(table: &Table, name: &[u8]) -> Option<InputId>
    ensures { result ≡ lookup (bytes_eq name.now) (shown table.now) }
{
    if table.is_empty() {
        return None;
    }
    table.get(KeyRef { bytes: name }).copied()
}

/// Makes room for so many more names.
pub fn make_room(table: &mut Table, names: usize) -> Result<(), OutOfMemory>
    ensures { shown table.new ≡ shown table.old }
{
    table.reserve(names)?;
    Ok(())
}

/// Gives the name this input, in the place of the one that it may have.
pub fn put(alloc: Global, table: &mut Table, name: &[u8], input: InputId) -> Result<(), OutOfMemory>
    ensures { OnOk result ((n : List ℕ) → lookup (bytes_eq n) (shown table.new) ≡ cond (bytes_eq n name.now) (Some input) (lookup (bytes_eq n) (shown table.old))) }
{
    table.insert(Key::new(alloc, name)?, input)?;
    Ok(())
}

/// The name of a symbol that defines one for other objects, by its place.
pub fn defined_at(object: &Object, at: usize) -> Option<&[u8]>
    ensures { option_copied result ≡ option_and_then (name_if is_definition) (slice_get object.now.symbols at) }
{
    match object.symbols.get(at) {
        Some(symbol) if symbol.is_definition() => symbol.name,
        _ => None,
    }
}

/// The name of a symbol that refers to one and isn't WEAK, by its place.
pub fn wanted_at(object: &Object, at: usize) -> Option<&[u8]>
    ensures { option_copied result ≡ option_and_then (name_if is_strong_reference) (slice_get object.now.symbols at) }
{
    match object.symbols.get(at) {
        Some(symbol) if symbol.is_strong_reference() => symbol.name,
        _ => None,
    }
}

/// How many names the object defines.
pub fn count_defined(object: &Object) -> u32 {
    let mut count: u32 = 0;
    for at in 0..object.symbols.len() {
        if defined_at(object, at).is_some() {
            count = count.saturating_add(1);
        }
    }
    count
}

/// Gives each name that the object defines this input.
pub fn define(
    alloc: Global,
    table: &mut Table,
    object: &Object,
    input: InputId,
) -> Result<(), OutOfMemory>
    ensures { OnOk result ((n : List ℕ) → lookup (bytes_eq n) (shown table.new) ≡ cond (has_name (defined_names object.now) n) (Some input) (lookup (bytes_eq n) (shown table.old))) }
{
    for at in 0..object.symbols.len() {
        if let Some(name) = defined_at(object, at) {
            put(alloc, table, name, input)?;
        }
    }
    Ok(())
}
