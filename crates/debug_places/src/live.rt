//! Which parts are live, as a flag for each part.
ghost use Rattle.std.specs.Prelude.{◌≡◌, ◌==◌, ◌||◌, ℕ, false, slice_index_or, IfOk, OnOk};
ghost use Rattle.debug_places.specs.Found.{AreMarked};

use std::alloc::Global;
use wl_base::OutOfMemory;

fn mark(table: &mut Vec<bool>, at: u32) -> Result<(), OutOfMemory>
    ensures { OnOk result ((k : ℕ) → slice_index_or table.new.items k false ≡ (slice_index_or table.old.items k false || (k == at))) }
{
    let at = at as usize;
    if at >= table.len() {
        return Err(OutOfMemory);
    }
    table[at] = true;
    Ok(())
}

/// Of each of so many parts whether it is one of these, by their numbers. Were a number none of a part,
/// it would be answered as want of memory.
pub(crate) fn marked(alloc: Global, count: usize, live: &[u32]) -> Result<Vec<bool>, OutOfMemory>
    ensures { IfOk result (λ table. AreMarked table.items live.now) }
{
    let mut table = vec![in alloc; false; count]?;
    for number in live {
        mark(&mut table, *number)?;
    }
    Ok(table)
}

/// Whether the part of a number is marked.
pub(crate) fn is_marked(table: &[bool], at: u32) -> bool
    ensures { result ≡ slice_index_or table.now at false }
{
    match table.get(at as usize) {
        Some(mark) => *mark,
        None => false,
    }
}
