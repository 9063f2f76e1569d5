//! The bodies and the data segments of the object, each with what its windows name, and by which numbers relocations are made of that.
ghost use Rattle.std.specs.Prelude.{◌≡◌, ℕ, false, Some, All, map, slice_get, IfOk};
ghost use Rattle.partial_tree.specs.link_program.made_symbols.declared.mode.Mode.TheVariants.{Plain};
ghost use Rattle.partial_tree.specs.link_program.link_rules.Program.{Program as Rules};
ghost use Rattle.partial_tree.specs.link_program.Program.{IsProgramOf};
ghost use Rattle.partial_tree.specs.link_program.Stand.{PartsStand};
ghost use Rattle.partial_tree.specs.partial_rules.Partial as partial;
ghost use Rattle.partial_tree.specs.partial_symbols.Standing.{Stood};
ghost use Rattle.partial_tree.specs.partial_symbols.Known.{AreStanding};
ghost use Rattle.partial_bytes.specs.Told.{PartFits, part_told};
ghost use Rattle.partial_items.specs.Items.{given, part_given};
ghost use Rattle.partial_items.specs.Numbered.{all_numbers};

use partial_bytes::{Numbers, Part, bytes_in, rows_are_windowed};
use partial_tree::{Program, Standing, Tables, part_at, relocs_are, row_at};
use std::alloc::Global;
use wl_base::{OutOfMemory, Seq};

/// Of each symbol of the loaded objects, by its place among those of all objects, the number of the symbol that stands for it; 0 where none does.
pub fn symbol_numbers(
    alloc: Global,
    standing: &Standing,
    tables: &Tables,
) -> Result<Seq<u32>, OutOfMemory>
    ensures { IfOk result (λ numbers. numbers ≡ all_numbers standing.now tables.now.symbols) }
{
    let symbols = tables.symbols.as_slice();
    let Ok(count) = u32::try_from(symbols.len()) else {
        return Err(OutOfMemory);
    };
    let mut numbers = Seq::with_room(alloc, symbols.len())?;
    for symbol in 0..count {
        numbers.push(standing.number_for(symbols, symbol))?;
    }
    Ok(numbers)
}

/// A part with what its windows name.
fn part_with<'a>(
    files: &'a [Seq<u8>],
    tables: &'a Tables,
    numbers: &'a Numbers<'a>,
    number: u32,
) -> Part<'a>
    ensures { given result ≡ part_given files.now tables.now numbers.now number }
{
    Part {
        bytes: bytes_in(files, part_at(tables, number).source),
        named: row_at(tables, number),
        numbers,
    }
}

fn parts_in<'a>(
    alloc: Global,
    files: &'a [Seq<u8>],
    tables: &'a Tables,
    numbers: &'a Numbers<'a>,
    parts: &[u32],
) -> Result<Seq<Part<'a>>, OutOfMemory>
    ensures { IfOk result (λ ps. map given ps ≡ map (part_given files.now tables.now numbers.now) parts.now) }
{
    let mut rows = Seq::with_room(alloc, parts.len())?;
    for part in parts {
        rows.push(part_with(files, tables, numbers, *part))?;
    }
    Ok(rows)
}

/// The bodies (0) or the data segments (1) of the object that a partial link makes of a program: kept parts by their numbers, with what they
/// name, of which relocations are made by these numbers of symbols and types. These are the files of the link. The windows of the relocations
/// lie in the parts.
pub fn parts_of<'a>(
    alloc: Global,
    program: Program<'a>,
    files: &'a [Seq<u8>],
    numbers: &'a Numbers<'a>,
    parts: &[u32],
) -> Result<Seq<Part<'a>>, OutOfMemory>
    ensures { IfOk result (λ ps. (p : Rules) (s : Stood) (kind : ℕ) → IsProgramOf Plain program.entry p → PartsStand p → p.plan.loose_calls ≡ false
        → AreStanding p program.entry.names.now.names s → numbers.now.types.now ≡ map (partial.type_number p) program.entry.tables.now.types
        → numbers.now.symbols.now ≡ all_numbers s program.entry.tables.now.symbols → files.now ≡ p.files
        → map (slice_get p.parts) parts.now ≡ map Some (partial.kept p kind)
        → (map part_told ps ≡ map (partial.windowed p) (partial.kept p kind)) × All PartFits ps) }
{
    relocs_are();
    rows_are_windowed();
    let rows = parts_in(alloc, files, program.tables, numbers, parts)?;
    Ok(rows)
}
