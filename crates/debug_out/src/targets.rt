//! What is known of the sections of an object, by their places: which are debug sections, and what
//! holds their relocations. Each table is filled in one pass over the custom sections.
ghost use Rattle.std.specs.Prelude.{◌≡◌, ◌==◌, ◌<◌, ◌||◌, ◌++◌, ◌∷◌, if◌then◌else◌, ℕ, List, false, length, map, slice_index_or, IfOk, OnOk};
ghost use Rattle.debug_rules.specs.Sections.{Custom, payloads_for};
ghost use Rattle.debug_rules.specs.Faults.{debug_places};
ghost use Rattle.debug_out.specs.declared.refs.Payloads.TheVariants.{Nothing};
ghost use Rattle.debug_out.specs.Refs.{custom_seen};
ghost use Rattle.debug_out.specs.Targets.{payloads_seen, two_at_most, HasPlaces, HasPayloads};

use crate::refs::{CustomRef, Payloads};
use crate::sections::{is_debug, target_of};
use std::alloc::Global;
use wl_base::OutOfMemory;

/// For how many sections there is room: up to the last custom one.
fn room_for(all: &[CustomRef<'_>]) -> usize {
    match all.last() {
        Some(c) => c.at as usize + 1,
        None => 0,
    }
}

fn mark(table: &mut Vec<bool>, at: u32) -> Result<(), OutOfMemory>
    ensures { OnOk result ((k : ℕ) → slice_index_or table.new.items k false ≡ (slice_index_or table.old.items k false || (at == k))) }
{
    let at = at as usize;
    if at >= table.len() {
        return Err(OutOfMemory);
    }
    table[at] = true;
    Ok(())
}

/// Whether the section at each place is a debug section.
pub fn debug_table(alloc: Global, all: &[CustomRef<'_>]) -> Result<Vec<bool>, OutOfMemory>
    ensures { IfOk result (λ table. HasPlaces table.items (debug_places (map custom_seen all.now))) }
{
    let mut table = vec![in alloc; false; room_for(all)]?;
    for c in all {
        if is_debug(c) {
            mark(&mut table, c.at)?;
        }
    }
    Ok(table)
}

/// One payload more.
fn and_one<'a>(found: Payloads<'a>, payload: &'a [u8]) -> Payloads<'a>
    ensures { (more : List (List ℕ)) → two_at_most (payloads_seen result ++ more) ≡ two_at_most (payloads_seen found.entry ++ payload.now ∷ more) }
{
    match found {
        Payloads::Nothing => Payloads::One(payload),
        Payloads::One(_) | Payloads::More => Payloads::More,
    }
}

/// Notes a payload that holds relocations for the section at a place.
fn note<'a>(table: &mut Vec<Payloads<'a>>, at: u32, payload: &'a [u8])
    ensures len { length table.new.items ≡ length table.old.items }
    ensures noted { (k : ℕ) (more : List (List ℕ)) → k < length table.old.items → two_at_most (payloads_seen (slice_index_or table.new.items k Nothing) ++ more)
        ≡ two_at_most (payloads_seen (slice_index_or table.old.items k Nothing) ++ (if at == k then payload.now ∷ more else more)) }
{
    let at = at as usize;
    if at < table.len() {
        let found = table[at];
        table[at] = and_one(found, payload);
    }
}

/// What holds relocations for the section at each place.
pub fn relocs_table<'a>(
    alloc: Global,
    all: &[CustomRef<'a>],
) -> Result<Vec<Payloads<'a>>, OutOfMemory>
    ensures { IfOk result (λ table. HasPayloads table.items (map custom_seen all.now)) }
{
    let mut table = vec![in alloc; Payloads::Nothing; room_for(all)]?;
    for c in all {
        match target_of(c) {
            Some(at) => note(&mut table, at, c.content),
            None => {}
        }
    }
    Ok(table)
}

/// What holds relocations for the section at a place.
pub fn payloads_at<'a>(table: &[Payloads<'a>], at: u32) -> Result<Payloads<'a>, OutOfMemory>
    ensures { IfOk result (λ found. (cs : List Custom) → HasPayloads table.now cs → payloads_seen found ≡ two_at_most (payloads_for at cs)) }
{
    match table.get(at as usize) {
        Some(found) => Ok(*found),
        None => Err(OutOfMemory),
    }
}
