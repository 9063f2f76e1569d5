//! Rows of the tree: those of parts lend bytes of the files, and those of names lend names of the objects.
ghost use Rattle.std.specs.Prelude.{◌≡◌, false, map, IfOk};
ghost use Rattle.partial_items.specs.link_program.made_symbols.declared.mode.Mode.TheVariants.{Plain};
ghost use Rattle.partial_items.specs.link_program.name_entries.View.{InputsRise};
ghost use Rattle.partial_items.specs.link_program.name_entries.Fits.{FitsObjects};
ghost use Rattle.partial_items.specs.link_program.link_rules.Program as rules;
ghost use Rattle.partial_items.specs.link_program.Program.{IsProgramOf};
ghost use Rattle.partial_items.specs.link_program.Stand.{PartsStand};
ghost use Rattle.partial_items.specs.partial_rules.Partial as partial;
ghost use Rattle.relink_out.specs.Found.{AreFound};
ghost use Rattle.relink_out.specs.Named.{AreNamed};
ghost use Rattle.partial_items.specs.Numbered.{all_numbers};
ghost use Rattle.relink_out.specs.Held.{AreHeld};
ghost use Rattle.relink_out.specs.Rows.{ArePartRows, AreNameRows};

use crate::found::Found;
use crate::held::Held;
use crate::named::Named;
use partial_bytes::{GlobalRow, GroupRow, InfoRow, Numbers, Part, SymbolRow};
use partial_items::{Entries, Program, globals_of, group_rows, infos_of, parts_of, symbols_of};
use std::alloc::Global;
use wl_base::{OutOfMemory, Seq};

/// The rows of kept parts.
#[derive(Drop)]
pub struct PartRows<'a> {
    pub globals: Seq<GlobalRow<'a>>,
    pub bodies: Seq<Part<'a>>,
    pub segments: Seq<Part<'a>>,
}

/// The rows of what has names.
#[derive(Drop)]
pub struct NameRows<'a> {
    /// One for each segment.
    pub infos: Seq<InfoRow<'a>>,
    pub symbols: Seq<SymbolRow<'a>>,
    pub groups: Seq<GroupRow<'a>>,
}

/// The rows of kept parts, by what was found and the numbers of symbols and types. These are the program's files.
pub fn part_rows<'a>(
    alloc: Global,
    program: Program<'a>,
    files: &'a [Seq<u8>],
    found: &Found,
    numbers: &'a Numbers<'a>,
) -> Result<PartRows<'a>, OutOfMemory>
    requires { InputsRise 0 program.objects.now }
    ensures { IfOk result (λ x. (p : rules.Program) → IsProgramOf Plain program.entry p → PartsStand p → p.plan.loose_calls ≡ false → files.now ≡ p.files
        → AreFound p program.entry.names.now.names found.now → numbers.now.types.now ≡ map (partial.type_number p) program.entry.tables.now.types
        → numbers.now.symbols.now ≡ all_numbers found.now.standing program.entry.tables.now.symbols → ArePartRows p x) }
{
    let functions = found.kept.functions();
    let blocks = found.kept.segments();
    let globals = globals_of(alloc, program, files, found.kept.globals())?;
    let bodies = parts_of(alloc, program, files, numbers, functions)?;
    let segments = parts_of(alloc, program, files, numbers, blocks)?;
    Ok(PartRows {
        globals,
        bodies,
        segments,
    })
}

/// The rows of what has names, by what was found and made. `entries` is the view of the program's objects.
pub fn name_rows<'a>(
    alloc: Global,
    program: Program<'a>,
    entries: Entries<'a>,
    found: &Found,
    named: &Named,
    held: &'a Held,
) -> Result<NameRows<'a>, OutOfMemory>
    requires rise { InputsRise 0 program.objects.now }
    requires fits { FitsObjects entries }
    requires objects { entries.objects.now ≡ program.objects.now }
    ensures { IfOk result (λ x. (p : rules.Program) → IsProgramOf Plain program.entry p → p.plan.loose_calls ≡ false
        → AreFound p program.entry.names.now.names found.now → AreNamed p named.now
        → AreHeld program.entry found.now held.now → AreNameRows p x) }
{
    let infos = infos_of(alloc, program, found.kept.segments())?;
    let rows = named.symbols.as_slice();
    let symbols = symbols_of(alloc, entries, rows)?;
    let groups = group_rows(alloc, program.objects, &held.groups)?;
    Ok(NameRows {
        infos,
        symbols,
        groups,
    })
}
