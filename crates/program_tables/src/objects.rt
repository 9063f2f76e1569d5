//! Where objects stand, by their inputs.
ghost use Rattle.std.specs.Prelude.{◌≡◌, ◌≤◌, ◌++◌, ℕ, ◌<◌, length, slice_get, OnOk, IfOk};
ghost use Rattle.link_program.specs.name_entries.Fits.{FitsObjects};
ghost use Rattle.program_tables.specs.Objects.{ArePlaces};

use link_program::Entries;
use std::alloc::Global;
use wl_base::{InputId, OutOfMemory, Seq};

/// Puts zeros at the end, up to the place of an input.
fn pad(places: &mut Seq<u32>, input: InputId) -> Result<(), OutOfMemory>
    requires { length places.old ≤ input }
    ensures count { OnOk result (length places.new ≡ input) }
    ensures same { OnOk result ((k : ℕ) → k < length places.old → slice_get places.new k ≡ slice_get places.old k) }
{
    for _ in places.len()..input as usize {
        places.push(0)?;
    }
    Ok(())
}

/// The places of the objects by their inputs; 0 of the linker and of inputs that aren't loaded.
pub(crate) fn places_by_input(alloc: Global, entries: Entries<'_>) -> Result<Seq<u32>, OutOfMemory>
    requires { FitsObjects entries }
    ensures { IfOk result (λ places. ArePlaces entries.entry.objects.now places) }
{
    let mut places = Seq::new(alloc);
    places.push(0)?;
    for object in 0..entries.count() {
        pad(&mut places, entries.objects[object as usize].input)?;
        places.push(object)?;
    }
    Ok(places)
}
