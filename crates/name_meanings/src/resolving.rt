//! The meanings of all symbols.
ghost use Rattle.std.specs.Prelude.{◌≡◌, ◌≤◌, ℕ, None, [], map, length, replicate, slice_index_or, OnOk, IfOk};
ghost use Rattle.name_entries.specs.name_rules.Entries.{entries as all_entries};
ghost use Rattle.name_entries.specs.name_rules.Meanings.{resolve as resolved};
ghost use Rattle.name_entries.specs.View.{rows_of, WinnersAre};
ghost use Rattle.name_entries.specs.Fits.{Fits};
ghost use Rattle.name_meanings.specs.Means.{row_of, IsResolution};
ghost use Rattle.name_meanings.specs.Known.{AreUses, IsKnown, FoundBy, IsRow, AreAnswers, meant, resolved_of};

use crate::columns::columns_of;
use crate::further::{FurtherImports, add_further};
use crate::imports::ImportTable;
use crate::naming::{Found, Known, meaning_of};
use crate::resolution::Resolution;
use made_symbols::Mode;
use name_entries::{Entries, Meaning};
use name_uses::{NameUses, uses_of};
use std::alloc::Global;
use symbol_race::Winners;
use wl_base::{InputId, OutOfMemory, Seq};
use wl_lists::Lists;

/// The answers for the symbols of an object, in place of those that the row has.
fn fill_row(
    alloc: Global,
    known: Known<'_>,
    found: &mut Found,
    row: &mut Seq<Meaning>,
    object: u32,
) -> Result<(), OutOfMemory>
    requires known { IsKnown known }
    requires found { FoundBy known found.old }
    ensures { OnOk result (IsRow known.entry row.new
        (map (meant known.entry) (slice_index_or (rows_of known.entry.entries.objects.now) object [])) found.old.imports found.new) }
{
    row.truncate(0);
    for place in 0..known.entries.symbols(object) {
        row.push(meaning_of(alloc, known, found, object, place)?)?;
    }
    Ok(())
}

/// Puts empty rows at the end, up to the row of an input.
fn pad(rows: &mut Lists<Meaning>, input: InputId) -> Result<(), OutOfMemory>
    requires { length rows.old ≤ input }
    ensures count { OnOk result (length rows.new ≡ input) }
    ensures same { OnOk result ((i : ℕ) → row_of rows.new i ≡ row_of rows.old i) }
{
    for _ in rows.len()..input as usize {
        rows.push(&[])?;
    }
    Ok(())
}

/// The answers for all symbols, by input.
fn all_rows(
    alloc: Global,
    known: Known<'_>,
    found: &mut Found,
) -> Result<Lists<Meaning>, OutOfMemory>
    requires known { IsKnown known }
    requires found { FoundBy known found.old }
    requires none { found.old.imports ≡ [] }
    ensures answers { IfOk result (λ rows. AreAnswers rows found.new.imports (map (resolved_of known.entry) known.entry.entries.objects.now)) }
    ensures found { IfOk result (λ rows. FoundBy known.entry found.new) }
{
    let mut rows = Lists::new(alloc);
    let mut row = Seq::new(alloc);
    rows.push(row.as_slice())?;
    for object in 0..known.entries.count() {
        fill_row(alloc, known, found, &mut row, object)?;
        pad(&mut rows, known.entries.objects[object as usize].input)?;
        rows.push(row.as_slice())?;
    }
    Ok(rows.shrunk())
}

/// What is used of each name, by its number; of a plain output nothing is asked.
fn uses_by(alloc: Global, entries: Entries<'_>, mode: Mode) -> Result<Vec<NameUses>, OutOfMemory>
    requires { Fits mode entries }
    ensures { IfOk result (λ uses. AreUses mode entries.entry.names.now.names entries.entry.objects.now uses.items) }
{
    match mode {
        Mode::Plain => Ok(Vec::new(alloc)),
        Mode::Shared => {
            let uses = uses_of(alloc, entries)?;
            Ok(uses)
        }
    }
}

/// How many cells there may be.
fn cells_of(mode: Mode, names: usize) -> usize {
    match mode {
        Mode::Plain => 0,
        Mode::Shared => names,
    }
}

/// Nothing found, with places for the imports of so many names and for so many cells.
fn nothing_found(alloc: Global, names: usize, cells: usize) -> Result<Found, OutOfMemory>
    ensures imports { IfOk result (λ found. found.imports ≡ []) }
    ensures numbers { IfOk result (λ found. found.numbers.items ≡ replicate names None) }
    ensures functions { IfOk result (λ found. found.function_cells.items ≡ replicate cells None) }
    ensures of_data { IfOk result (λ found. found.data_cells.items ≡ replicate cells None) }
{
    let numbers = vec![in alloc; None; names]?;
    let function_cells = vec![in alloc; None; cells]?;
    let data_cells = vec![in alloc; None; cells]?;
    Ok(Found {
        imports: ImportTable::new(alloc),
        numbers,
        function_cells,
        data_cells,
    })
}

/// What the symbols of the loaded objects mean. In a plain output: of each name the winner, else an import of a reference with
/// EXPLICIT_NAME, else with `allow_undefined` that of a reference, else null for a WEAK function or datum, else nothing. In a shared one:
/// the winner, else such an import, else that of a reference for a function that is called and for a global, else the cell of its address
/// for a datum and for a function of which the address alone is used, else nothing. It may import besides the linker's globals, and the
/// cells of the addresses of foreign functions.
#[tactic(auto, using(crate::proofs::Finding::none_found))]
pub fn resolve(
    alloc: Global,
    entries: Entries<'_>,
    winners: &Winners,
    allow_undefined: bool,
    mode: Mode,
) -> Result<Resolution, OutOfMemory>
    requires fits { Fits mode entries }
    requires winners { WinnersAre entries.names.now.names (all_entries mode entries.objects.now) winners.now }
    ensures { IfOk result (λ r. IsResolution mode (all_entries mode entries.entry.objects.now) r
        (resolved mode allow_undefined (all_entries mode entries.entry.objects.now) entries.entry.objects.now)) }
{
    let columns = columns_of(alloc, entries)?;
    let uses = uses_by(alloc, entries, mode)?;
    let known = Known {
        entries,
        winners,
        columns: columns.as_slice(),
        allow_undefined,
        mode,
        uses: uses.as_slice(),
    };
    let mut found = nothing_found(alloc, columns.len(), cells_of(mode, columns.len()))?;
    let rows = all_rows(alloc, known, &mut found)?;
    let besides = add_further(alloc, known, &mut found)?;
    let FurtherImports { cells, made } = besides;
    let Found {
        imports,
        numbers: _,
        function_cells: _,
        data_cells: _,
    } = found;
    Ok(Resolution {
        rows,
        imports,
        cells,
        made,
    })
}
