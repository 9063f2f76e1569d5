//! The names of a library, each with the least member that is given for it.
ghost use Rattle.std.specs.Prelude.{◌≡◌, [], IfOk, OnOk, option_map};
ghost use Rattle.std.specs.Map.{lookup};
ghost use Rattle.std.specs.Str.{bytes_eq};
ghost use Rattle.lib_index.specs.Reading.{Answers, name_at, entries_at, offers};
ghost use Rattle.lib_index.specs.Table.{shown, lesser, offered_onto};

use crate::fault::LibError;
use byte_text::first_zero;
use indexmap::IndexMap;
use std::alloc::Global;
use wl_base::{Key, KeyRef, LibFault, OutOfMemory};

/// The least member for each name.
pub type Table = IndexMap<Key, u32>;

/// The member that is offered for a name.
pub fn offered(table: &Table, name: &[u8]) -> Option<u32>
    ensures { result ≡ lookup (bytes_eq name.now) (shown table.now) }
{
    table.get(KeyRef { bytes: name }).copied()
}

/// The member that was offered before, if it is less.
fn lesser(before: Option<u32>, number: u32) -> Option<u32>
    ensures { result ≡ lesser before number }
{
    match before {
        Some(first) if first < number => Some(first),
        Some(_) | None => None,
    }
}

/// Offers a member for a name, unless one that isn't greater is. Nearly all names are new, so the member is put in first.
fn offer(alloc: Global, table: &mut Table, name: &[u8], number: u32) -> Result<(), OutOfMemory>
    ensures { OnOk result (shown table.new ≡ offered_onto (shown table.old) name.now number) }
{
    let before = table.insert(Key::new(alloc, name)?, number)?;
    if let Some(first) = lesser(before, number) {
        table.insert(Key::new(alloc, name)?, first)?;
    }
    Ok(())
}

/// The bytes before the first 0, and those after it.
fn name_at(bytes: &[u8]) -> Option<(&[u8], &[u8])>
    ensures { option_map (λ x. (x.0.now, x.1.now)) result ≡ name_at bytes.now }
{
    let at = first_zero(bytes)?;
    Some((&bytes[..at], &bytes[at + 1..]))
}

/// No name, with room for so many.
fn with_room(alloc: Global, count: usize) -> Result<Table, OutOfMemory>
    ensures { IfOk result (λ table. shown table ≡ []) }
{
    Ok(IndexMap::with_capacity(alloc, count)?)
}

/// What is offered where each of these members has a name among these.
pub fn table_of(alloc: Global, numbers: &[u32], names: &[u8]) -> Result<Table, LibError>
    ensures { Answers shown result (offers (entries_at numbers.now names.now)) }
{
    let mut table = with_room(alloc, numbers.len())?;
    let mut rest = names;
    for number in numbers {
        let Some((name, after)) = name_at(rest) else {
            return Err(LibError::Refused(LibFault::BadIndex(3)));
        };
        offer(alloc, &mut table, name, *number)?;
        rest = after;
    }
    Ok(table)
}
