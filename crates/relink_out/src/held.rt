//! What of the object is held by its parts: groups; and the numbers of symbols, by which relocations of bodies and data segments are made.
ghost use Rattle.std.specs.Prelude.{◌≡◌, IfOk};
ghost use Rattle.partial_items.specs.link_program.name_entries.Fits.{FitsObjects};
ghost use Rattle.relink_out.specs.Held.{AreHeld};

use crate::found::Found;
use partial_items::{Entries, Places, Program, Won, groups_of, symbol_numbers};
use std::alloc::Global;
use wl_base::{OutOfMemory, Seq};

/// What of the object is held by its parts.
#[derive(Drop)]
pub struct Held {
    pub groups: Won,
    /// By the place of each symbol of the objects, the number of the one that stands for it in the object.
    pub symbols: Seq<u32>,
}

/// What is held by the parts of the object, by what was found. `entries` is the view of the program's objects.
pub fn held_of(
    alloc: Global,
    program: Program<'_>,
    entries: Entries<'_>,
    found: &Found,
) -> Result<Held, OutOfMemory>
    requires fits { FitsObjects entries }
    requires objects { entries.objects.now ≡ program.objects.now }
    requires names { entries.names.now ≡ program.names.now }
    ensures { IfOk result (AreHeld program.entry found.now) }
{
    let places = Places {
        kept: &found.kept,
        chunks: &program.tables.chunks,
        functions: found.functions,
    };
    let groups = groups_of(alloc, places, entries)?;
    let symbols = symbol_numbers(alloc, &found.standing, program.tables)?;
    Ok(Held { groups, symbols })
}
