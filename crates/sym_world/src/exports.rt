//! The exports, and what they lead to.
ghost use Rattle.std.specs.Prelude.{◌≡◌, ◌++◌, map, drop, All, Contains, IfOk, OnOk};
ghost use Rattle.link_program.specs.name_rules.Entries.{InputSymbol};
ghost use Rattle.link_program.specs.made_symbols.declared.mode.Mode.TheVariants as modes;
ghost use Rattle.link_program.specs.link_rules.Values as values;
ghost use Rattle.link_program.specs.link_rules.Output.{layout as laid_out};
ghost use Rattle.link_program.specs.Live.{Stage};
ghost use Rattle.link_program.specs.Told.{told_winner};
ghost use Rattle.link_marks.specs.Names.{IsWinner};
ghost use Rattle.link_layout.specs.Layout.{IsLayoutIn};
ghost use Rattle.sym_functions.specs.link_image.Sections.{entry_of};
ghost use Rattle.run_rules.specs.declared.world.Target.TheVariants.{ToFunction, ToCell};
ghost use Rattle.link_worlds.specs.Worlds.{target_by};
ghost use Rattle.sym_functions.specs.sym_parts.Data.{target_seen};
ghost use Rattle.sym_world.specs.Exports.{export_seen};

use link_layout::Layout;
use link_marks::export_name;
use link_program::{Definition, GlobalKey, Winner, function_of, index_of};
use linking_section::SymbolKind;
use run_rules::{Exported, Target};
use std::alloc::Global;
use sym_functions::{Cells, Functions, address};
use wl_base::{OutOfMemory, Seq};

/// The function of a place.
fn to_function(place: Option<u32>) -> Target
    ensures { result ≡ target_by ToFunction place }
{
    match place {
        Some(place) => Target::ToFunction(place),
        None => Target::Elsewhere,
    }
}

/// The cell of a place.
fn to_cell(place: Option<u32>) -> Target
    ensures { result ≡ target_by ToCell place }
{
    match place {
        Some(place) => Target::ToCell(place),
        None => Target::Elsewhere,
    }
}

/// What the export of a definition leads to. An address of 2^32 and more is answered as want of memory.
fn target(
    layout: Layout<'_>,
    functions: &Functions,
    cells: &Cells,
    definition: Definition,
) -> Result<Target, OutOfMemory>
    ghost s: { Stage }
    requires { IsLayoutIn modes.Plain s.program s.parts s.exports layout }
    ensures { IfOk result (λ t. t ≡ target_seen functions.now cells.now
        (values.address_of modes.Plain (laid_out modes.Plain s.program s.parts s.exports) (entry_of definition)) definition definition.kind) }
{
    match definition.kind {
        SymbolKind::Function => Ok(to_function(functions.place(function_of(definition)))),
        SymbolKind::Datum => match u32::try_from(address(layout, definition)) {
            Ok(address) => Ok(Target::ToNumber(address)),
            Err(_) => Err(OutOfMemory),
        },
        SymbolKind::GlobalVar => Ok(to_cell(cells.place(GlobalKey::Own {
            input: definition.input,
            index: index_of(definition),
        }))),
        SymbolKind::Section | SymbolKind::Table => Ok(Target::Elsewhere),
    }
}

/// The export of a winner.
fn export(
    alloc: Global,
    layout: Layout<'_>,
    functions: &Functions,
    cells: &Cells,
    winner: &Winner,
) -> Result<Exported, OutOfMemory>
    ghost s: { Stage }
    requires layout { IsLayoutIn modes.Plain s.program s.parts s.exports layout }
    requires winner { IsWinner layout.program.names.now.names s.program.winners winner.now }
    ensures { (e : InputSymbol) → Contains s.program.winners e → winner.now ≡ told_winner layout.entry.program.names.now.names e
        → IfOk result (λ x. x ≡ export_seen s.program (laid_out modes.Plain s.program s.parts s.exports) functions.now cells.now e) }
{
    let name = Seq::from_slice(alloc, export_name(layout.program, winner))?;
    let target = target(layout, functions, cells, winner.definition)?;
    Ok(Exported { name, target })
}

/// Adds the exported winners.
pub(crate) fn add_winners(
    alloc: Global,
    layout: Layout<'_>,
    functions: &Functions,
    cells: &Cells,
    winners: &[Winner],
    exports: &mut Seq<Exported>,
) -> Result<(), OutOfMemory>
    ghost s: { Stage }
    requires layout { IsLayoutIn modes.Plain s.program s.parts s.exports layout }
    requires winners { All (Contains s.program.winners) s.exports }
    requires exports { winners.now ≡ map (told_winner layout.program.names.now.names) s.exports }
    ensures { OnOk result (exports.new ≡ exports.old ++ map (export_seen s.program (laid_out modes.Plain s.program s.parts s.exports) functions.now cells.now) s.exports) }
{
    for winner in winners {
        let export = export(alloc, layout, functions, cells, winner)?;
        exports.push(export)?;
    }
    Ok(())
}
