//! What of the world isn't told by its parts: the exports, and how large the memory may be.
ghost use Rattle.std.specs.Prelude.{◌≡◌, ◌∷◌, [], ◌/◌, ◌++◌, map, option_map, unwrap_or, if◌then◌else◌, All, Contains, IfOk};
ghost use Rattle.link_program.specs.made_symbols.declared.mode.Mode.TheVariants as modes;
ghost use Rattle.link_program.specs.link_rules.Marks.{memory_name};
ghost use Rattle.link_program.specs.link_rules.Output.{layout as laid_out};
ghost use Rattle.link_program.specs.Live.{Stage};
ghost use Rattle.link_program.specs.Told.{told_winner};
ghost use Rattle.link_layout.specs.Layout.{IsLayoutIn};
ghost use Rattle.run_rules.specs.declared.world.Target.TheVariants.{Elsewhere};
ghost use Rattle.sym_world.specs.Exports.{export_seen};

use crate::exports::add_winners;
use link_layout::Layout;
use link_program::Winner;
use run_rules::{Exported, Target};
use std::alloc::Global;
use sym_functions::{Cells, Functions};
use wl_base::{OutOfMemory, Seq};

/// The export of the memory, if it isn't imported.
fn memory_exports(alloc: Global, imported: bool) -> Result<Seq<Exported>, OutOfMemory>
    ensures { IfOk result (λ es. es ≡ (if imported then [] else record { name = memory_name; target = Elsewhere } ∷ [])) }
{
    let mut exports = Seq::new(alloc);
    if !imported {
        let name = Seq::from_slice(alloc, b"memory".as_slice())?;
        exports.push(Exported {
            name,
            target: Target::Elsewhere,
        })?;
    }
    Ok(exports)
}

/// All exports.
pub(crate) fn exports_of(
    alloc: Global,
    layout: Layout<'_>,
    functions: &Functions,
    cells: &Cells,
    winners: &[Winner],
) -> Result<Seq<Exported>, OutOfMemory>
    ghost s: { Stage }
    requires layout { IsLayoutIn modes.Plain s.program s.parts s.exports layout }
    requires winners { All (Contains s.program.winners) s.exports }
    requires exports { winners.now ≡ map (told_winner layout.program.names.now.names) s.exports }
    ensures { IfOk result (λ es. es ≡ (if layout.entry.program.plan.now.import_memory then [] else record { name = memory_name; target = Elsewhere } ∷ [])
        ++ map (export_seen s.program (laid_out modes.Plain s.program s.parts s.exports) functions.now cells.now) s.exports) }
{
    let mut exports = memory_exports(alloc, layout.program.plan.import_memory)?;
    add_winners(alloc, layout, functions, cells, winners, &mut exports)?;
    Ok(exports)
}

/// How many pages the memory may have, by its greatest size in bytes. 2^32 pages and more are answered as want of memory.
pub(crate) fn most_pages(most: Option<u64>) -> Result<u32, OutOfMemory>
    ensures { IfOk result (λ n. n ≡ unwrap_or (option_map (λ n. n / 65536) most) 65536) }
{
    match most {
        None => Ok(65_536),
        Some(bytes) => match u32::try_from(bytes / 65_536) {
            Ok(pages) => Ok(pages),
            Err(_) => Err(OutOfMemory),
        },
    }
}
