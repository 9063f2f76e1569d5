//! What later parts look up by number.
ghost use Rattle.std.specs.Prelude.{◌≡◌, IfOk};
ghost use Rattle.partial_items.specs.link_program.made_symbols.declared.mode.Mode.TheVariants.{Plain};
ghost use Rattle.partial_items.specs.link_program.name_entries.Fits.{FitsObjects};
ghost use Rattle.partial_items.specs.link_program.link_rules.Program.{Program as Rules};
ghost use Rattle.partial_items.specs.link_program.Program.{IsProgramOf};
ghost use Rattle.relink_out.specs.Found.{AreFound};

use linking_section::SymbolKind;
use partial_items::{
    Entries, Kept, Open, Program, Sight, Standing, count_of, kept_of, opens_of, sight_of,
    standing_of,
};
use std::alloc::Global;
use wl_base::{OutOfMemory, Seq};

/// What is found of a program.
#[derive(Drop)]
pub struct Found {
    /// What is known of names.
    pub sight: Sight,
    /// The symbols that stand in the object.
    pub standing: Standing,
    /// The kept parts.
    pub kept: Kept,
    /// The names that no object defines.
    pub opens: Seq<Open>,
    /// How many of them are functions.
    pub functions: u32,
    /// How many are globals.
    pub globals: u32,
}

/// What is found of a program. `entries` is the view of its objects.
pub fn found_of(
    alloc: Global,
    program: Program<'_>,
    entries: Entries<'_>,
) -> Result<Found, OutOfMemory>
    requires fits { FitsObjects entries }
    requires objects { entries.objects.now ≡ program.objects.now }
    requires names { entries.names.now ≡ program.names.now }
    ensures { IfOk result (λ f. (p : Rules) → IsProgramOf Plain program.entry p → AreFound p program.entry.names.now.names f) }
{
    let sight = sight_of(alloc, program, entries)?;
    let standing = standing_of(alloc, program, entries, &sight)?;
    let kept = kept_of(alloc, program)?;
    let opens = opens_of(alloc, &sight, entries, standing.symbols())?;
    let list = opens.as_slice();
    let functions = count_of(list, SymbolKind::Function)?;
    let globals = count_of(list, SymbolKind::GlobalVar)?;
    Ok(Found {
        sight,
        standing,
        kept,
        opens,
        functions,
        globals,
    })
}
