//! What a shared output may import that no symbol means (DynamicLinking.md): the linker's globals, and the cells in which the loader puts
//! the addresses of foreign functions. They go behind the imports that symbols mean.
ghost use Rattle.std.specs.Prelude.{◌≡◌, ◌<◌, ◌∷◌, ◌++◌, List, [], Some, length, slice_index_or, IsSome, IfOk, OnOk};
ghost use Rattle.name_entries.specs.linking_section.declared.symbol.SymbolKind.TheVariants as kinds;
ghost use Rattle.name_entries.specs.made_symbols.declared.mode.Mode.TheVariants as modes;
ghost use Rattle.name_entries.specs.made_symbols.Made.{MadeSymbol, made, made_at};
ghost use Rattle.name_entries.specs.name_rules.Entries.{InputSymbol, ImportKey};
ghost use Rattle.name_entries.specs.View.{entry_at, rows_of};
ghost use Rattle.name_meanings.specs.Columns.{all_symbols};
ghost use Rattle.name_meanings.specs.Known.{IsKnown, FoundBy};
ghost use Rattle.name_meanings.specs.Further.{is_global_kind, AreMade, FindsCell, AreCellsOf, AreFurther};

use crate::imports::{ImportTable, OutputImport};
use crate::naming::{Found, Known, is_function};
use made_symbols::{Mode, changes, count, kind, name};
use name_entries::SymbolKind;
use std::alloc::Global;
use wl_base::{OutOfMemory, Seq};

/// The numbers of what is imported besides.
#[derive(Drop)]
pub(crate) struct FurtherImports {
    /// Those of the cells of foreign functions, for all symbols, one object behind another.
    pub(crate) cells: Seq<Option<u32>>,
    /// Those of the linker's globals, in the order of its table.
    pub(crate) made: Seq<u32>,
}

/// Whether this is the kind of globals.
fn is_global(kind: SymbolKind) -> bool
    ensures { result ≡ is_global_kind kind }
{
    match kind {
        SymbolKind::GlobalVar => true,
        SymbolKind::Function | SymbolKind::Datum | SymbolKind::Section | SymbolKind::Table => false,
    }
}

/// Imports a linker-made symbol, if it is a global.
fn add_made(
    alloc: Global,
    imports: &mut ImportTable,
    numbers: &mut Seq<u32>,
    k: u32,
) -> Result<(), OutOfMemory>
    requires { k < length (made modes.Shared) }
    ensures { OnOk result ((before : List MadeSymbol) (base : List ImportKey) → AreMade before base imports.old numbers.old
        → AreMade (before ++ made_at modes.Shared k ∷ []) base imports.new numbers.new) }
{
    if is_global(kind(Mode::Shared, k)) {
        let import = OutputImport::made(alloc, name(Mode::Shared, k), changes(Mode::Shared, k))?;
        let number = imports.add(import)?;
        numbers.push(number)?;
        return Ok(());
    }
    Ok(())
}

/// Imports the linker's globals.
fn add_all_made(alloc: Global, imports: &mut ImportTable) -> Result<Seq<u32>, OutOfMemory>
    ensures { IfOk result (λ numbers. AreMade (made modes.Shared) imports.old imports.new numbers) }
{
    let mut numbers = Seq::new(alloc);
    for k in 0..count(Mode::Shared) {
        add_made(alloc, imports, &mut numbers, k)?;
    }
    Ok(numbers)
}

/// The number of a symbol's cell, if it is a foreign function.
fn cell_at(
    alloc: Global,
    known: Known<'_>,
    found: &mut Found,
    object: u32,
    place: u32,
) -> Result<Option<u32>, OutOfMemory>
    requires known { IsKnown known }
    requires found { FoundBy known found.old }
    requires there { IsSome (entry_at known.entries.objects.now object place) }
    ensures cell { IfOk result (λ told. (e : InputSymbol) → entry_at known.entry.entries.objects.now object place ≡ Some e
        → FindsCell known.entry told e found.old found.new) }
    ensures found { OnOk result (FoundBy known.entry found.new) }
{
    let Some(entry) = known.entries.entry(object, place) else {
        unreachable!()
    };
    let Some(name) = entry.number else {
        return Ok(None);
    };
    if let Some(_) = known.winners.of(name) {
        return Ok(None);
    }
    if is_function(entry.symbol) {
        let number = found.cell(alloc, known, name, true)?;
        return Ok(Some(number));
    }
    Ok(None)
}

/// The same of the symbols of an object, put at the end.
fn add_cells(
    alloc: Global,
    known: Known<'_>,
    found: &mut Found,
    cells: &mut Seq<Option<u32>>,
    object: u32,
) -> Result<(), OutOfMemory>
    requires known { IsKnown known }
    requires found { FoundBy known found.old }
    ensures cells { OnOk result ((seen : List InputSymbol) (base : List ImportKey) → AreCellsOf known.entry base seen cells.old found.old
        → AreCellsOf known.entry base (seen ++ slice_index_or (rows_of known.entry.entries.objects.now) object []) cells.new found.new) }
    ensures found { OnOk result (FoundBy known.entry found.new) }
{
    for place in 0..known.entries.symbols(object) {
        cells.push(cell_at(alloc, known, found, object, place)?)?;
    }
    Ok(())
}

/// The same of all symbols.
fn all_cells(
    alloc: Global,
    known: Known<'_>,
    found: &mut Found,
) -> Result<Seq<Option<u32>>, OutOfMemory>
    requires known { IsKnown known }
    requires found { FoundBy known found.old }
    ensures { IfOk result (λ cells. AreCellsOf known.entry found.old.imports (all_symbols known.entry.entries.objects.now) cells found.new) }
{
    let mut cells = Seq::new(alloc);
    for object in 0..known.entries.count() {
        add_cells(alloc, known, found, &mut cells, object)?;
    }
    Ok(cells)
}

/// Imports what a shared output may import besides.
fn add_shared(
    alloc: Global,
    known: Known<'_>,
    found: &mut Found,
) -> Result<FurtherImports, OutOfMemory>
    requires mode { known.mode ≡ modes.Shared }
    requires known { IsKnown known }
    requires found { FoundBy known found.old }
    ensures { IfOk result (λ f. AreFurther known.entry found.old.imports found.new.imports f.cells f.made) }
{
    let made = add_all_made(alloc, &mut found.imports)?;
    let cells = all_cells(alloc, known, found)?;
    Ok(FurtherImports { cells, made })
}

/// Imports what is imported besides: in a plain output nothing.
pub(crate) fn add_further(
    alloc: Global,
    known: Known<'_>,
    found: &mut Found,
) -> Result<FurtherImports, OutOfMemory>
    requires known { IsKnown known }
    requires found { FoundBy known found.old }
    ensures { IfOk result (λ f. AreFurther known.entry found.old.imports found.new.imports f.cells f.made) }
{
    match known.mode {
        Mode::Plain => Ok(FurtherImports {
            cells: Seq::new(alloc),
            made: Seq::new(alloc),
        }),
        Mode::Shared => add_shared(alloc, known, found),
    }
}
