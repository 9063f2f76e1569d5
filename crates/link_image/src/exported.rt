//! The export section (Core 5.5.10).
ghost use Rattle.std.specs.Prelude.{◌≡◌, ◌++◌, map, drop, List, All, Contains, IfOk, OnOk};
ghost use Rattle.link_program.specs.name_rules.Entries.{InputSymbol};
ghost use Rattle.link_program.specs.link_rules.Marks as marks;
ghost use Rattle.link_program.specs.link_rules.Program as rules;
ghost use Rattle.link_program.specs.Told.{told_definition, told_winner};
ghost use Rattle.link_program.specs.Program.{IsProgram};
ghost use Rattle.link_marks.specs.Names.{IsWinner};
ghost use Rattle.link_marks.specs.About.{Exporting};
ghost use Rattle.link_image.specs.Sections.{space_of, own_global, shared_global, global_by, index_by, export_seen};

use crate::shared::FIRST_GLOBAL;
use link_layout::Numbering;
use link_marks::export_name;
use link_program::{Definition, GlobalKey, Program, Winner, function_of, index_of};
use linking_section::SymbolKind;
use made_symbols::Mode;
use std::alloc::Global;
use wasm_module::{Export, export_kinds};
use wl_base::{Name, OutOfMemory, Seq};

// What kind of export a symbol is.
fn space_of(kind: SymbolKind) -> u8
    ensures { result ≡ space_of kind }
{
    match kind {
        SymbolKind::Function => export_kinds::FUNCTION,
        SymbolKind::Datum | SymbolKind::GlobalVar => export_kinds::GLOBAL,
        SymbolKind::Section | SymbolKind::Table => export_kinds::TABLE,
    }
}

// The number of a global that the output defines.
fn own_global(numbering: &Numbering, definition: Definition) -> u32
    ensures { result ≡ own_global numbering.now definition }
{
    numbering.global_number(GlobalKey::Own {
        input: definition.input,
        index: index_of(definition),
    })
}

// The number of a global of a shared output. The linker's are imports, and stand first.
fn shared_global(numbering: &Numbering, definition: Definition) -> u32
    ensures { result ≡ shared_global numbering.now definition }
{
    if definition.input == 0 {
        definition.place.saturating_sub(FIRST_GLOBAL)
    } else {
        own_global(numbering, definition)
    }
}

// The number of a global.
fn global_by(mode: Mode, numbering: &Numbering, definition: Definition) -> u32
    ensures { result ≡ global_by mode numbering.now definition }
{
    match mode {
        Mode::Plain => own_global(numbering, definition),
        Mode::Shared => shared_global(numbering, definition),
    }
}

// The number of what is exported among those of its kind.
fn index_by(mode: Mode, numbering: &Numbering, definition: Definition, kind: SymbolKind) -> u32
    ensures { result ≡ index_by mode numbering.now definition kind }
{
    match kind {
        SymbolKind::Function => numbering.function_number(function_of(definition)),
        SymbolKind::Datum => numbering.global_number(GlobalKey::Datum(definition)),
        SymbolKind::GlobalVar => global_by(mode, numbering, definition),
        SymbolKind::Section | SymbolKind::Table => 0,
    }
}

// An export under a name.
fn named(
    alloc: Global,
    mode: Mode,
    numbering: &Numbering,
    name: &[u8],
    definition: Definition,
) -> Result<Export, OutOfMemory>
    ensures { IfOk result (λ x. x ≡ export_seen mode numbering.now name.now definition) }
{
    let name = Seq::from_slice(alloc, name)?;
    Ok(Export {
        name,
        kind: space_of(definition.kind),
        index: index_by(mode, numbering, definition, definition.kind),
    })
}

// The export of a winner.
fn export(
    alloc: Global,
    mode: Mode,
    program: Program<'_>,
    numbering: &Numbering,
    winner: &Winner,
) -> Result<Export, OutOfMemory>
    ghost p: { rules.Program }
    requires program { IsProgram program p }
    requires winner { IsWinner program.names.now.names p.winners winner.now }
    ensures { (e : InputSymbol) → Contains p.winners e → winner.now ≡ told_winner program.entry.names.now.names e
        → IfOk result (λ x. x ≡ export_seen mode numbering.now (marks.export_name p e) (told_definition e)) }
{
    let name = export_name(program, winner);
    let export = named(alloc, mode, numbering, name, winner.definition)?;
    Ok(export)
}

/// Adds the exported winners.
pub(crate) fn add_winners(
    alloc: Global,
    mode: Mode,
    program: Program<'_>,
    numbering: &Numbering,
    winners: &[Winner],
    exports: &mut Seq<Export>,
) -> Result<(), OutOfMemory>
    ghost w: { Exporting }
    requires program { IsProgram program w.program }
    requires winners { All (Contains w.program.winners) w.exports }
    requires exports { winners.now ≡ map (told_winner program.names.now.names) w.exports }
    ensures { OnOk result (exports.new ≡ exports.old ++ map (λ e. export_seen mode numbering.now (marks.export_name w.program e) (told_definition e)) w.exports) }
{
    for winner in winners {
        let export = export(alloc, mode, program, numbering, winner)?;
        exports.push(export)?;
    }
    Ok(())
}
