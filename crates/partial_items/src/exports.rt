//! The exports of the object: kept functions that their own objects export.
ghost use Rattle.std.specs.Prelude.{◌≡◌, ◌+◌, ◌++◌, [], filter_map, length, option_map, option_and_then, option_copied, slice_get, IfOk, OnOk};
ghost use Rattle.std.specs.List.{cons_option};
ghost use Rattle.partial_tree.specs.link_program.linking_section.declared.symbol.SymbolKind.TheVariants.{Function};
ghost use Rattle.partial_tree.specs.link_program.made_symbols.declared.mode.Mode.TheVariants.{Plain};
ghost use Rattle.partial_tree.specs.link_program.name_entries.View.{InputsRise};
ghost use Rattle.partial_tree.specs.link_program.link_rules.Program.{Program as Rules};
ghost use Rattle.partial_tree.specs.link_program.Program.{IsProgramOf};
ghost use Rattle.partial_tree.specs.partial_rules.Partial as partial;
ghost use Rattle.partial_tree.specs.partial_parts.Kept.{AreKept};
ghost use Rattle.partial_items.specs.Owned.{object_at};
ghost use Rattle.partial_items.specs.Items as told;
ghost use Rattle.partial_items.specs.Items.{chunk_of, export_with};

use crate::owned::{function_in, owner_of};
use partial_tree::{Kept, Object, Program, Tables, part_at};
use std::alloc::Global;
use wasm_module::{Export, export_kinds};
use wl_base::{OutOfMemory, Seq};

/// The name under which its object exports a function, where the object stands at a place.
fn name_in(objects: &[Object], place: Option<usize>, index: u32) -> Option<&[u8]>
    ensures { option_copied result ≡ option_and_then (λ f. f.export_name) (option_and_then (λ o. slice_get o.functions index) (option_and_then (slice_get objects.now) place)) }
{
    let Some(function) = function_in(objects, place, index) else {
        return None;
    };
    function.export_name
}

/// The sum. One of 2^32 and more is answered as want of memory.
fn sum(a: u32, b: u32) -> Result<u32, OutOfMemory>
    ensures { IfOk result (λ n. n ≡ a + b) }
{
    match a.checked_add(b) {
        Some(n) => Ok(n),
        None => Err(OutOfMemory),
    }
}

/// The export of a function of this number.
fn export(alloc: Global, name: &[u8], index: u32) -> Result<Export, OutOfMemory>
    ensures { IfOk result (λ x. x ≡ export_with index name.now) }
{
    let name = Seq::from_slice(alloc, name)?;
    Ok(Export {
        name,
        kind: export_kinds::FUNCTION,
        index,
    })
}

/// The export of a function, where its object exports it.
fn export_by(
    alloc: Global,
    name: Option<&[u8]>,
    imported: u32,
    place: u32,
) -> Result<Option<Export>, OutOfMemory>
    ensures { IfOk result (λ x. x ≡ option_map (export_with (imported + place)) (option_copied name.entry)) }
{
    let Some(name) = name else {
        return Ok(None);
    };
    let index = sum(imported, place)?;
    let made = export(alloc, name, index)?;
    Ok(Some(made))
}

/// Puts an export behind others, where there is one.
fn put(exports: &mut Seq<Export>, found: Option<Export>) -> Result<(), OutOfMemory>
    ensures { OnOk result (exports.new ≡ exports.old ++ cons_option found []) }
{
    if let Some(export) = found {
        exports.push(export)?;
    }
    Ok(())
}

/// The export of the part of a number, whose object stands at a place.
fn export_for(
    alloc: Global,
    objects: &[Object],
    place: Option<usize>,
    tables: &Tables,
    kept: &Kept,
    imported: u32,
    part: u32,
) -> Result<Option<Export>, OutOfMemory>
    requires { option_and_then (slice_get objects.now) place ≡ object_at objects.now (chunk_of tables.now part).input }
    ensures { IfOk result (λ x. x ≡ told.export_for objects.now tables.now kept.now imported part) }
{
    let chunk = part_at(tables, part).chunk;
    let name = name_in(objects, place, chunk.index);
    let found = export_by(alloc, name, imported, kept.place(part))?;
    Ok(found)
}

/// The exports of functions by the numbers of their parts.
fn exports_in(
    alloc: Global,
    objects: &[Object],
    tables: &Tables,
    kept: &Kept,
    imported: u32,
    functions: &[u32],
) -> Result<Seq<Export>, OutOfMemory>
    requires { InputsRise 0 objects.now }
    ensures { IfOk result (λ xs. xs ≡ filter_map (told.export_for objects.now tables.now kept.now imported) functions.now) }
{
    let mut exports = Seq::new(alloc);
    let mut near = 0;
    for part in functions {
        let place = owner_of(objects, near, tables, *part);
        let found = export_for(alloc, objects, place, tables, kept, imported, *part)?;
        put(&mut exports, found)?;
        near = place.unwrap_or(near);
    }
    Ok(exports)
}

/// The exports of the object that a partial link makes of a program, in the order of its functions, of which so many are imported.
pub fn exports_of(
    alloc: Global,
    program: Program<'_>,
    kept: &Kept,
    imported: u32,
) -> Result<Seq<Export>, OutOfMemory>
    requires { InputsRise 0 program.objects.now }
    ensures { IfOk result (λ xs. (p : Rules) → IsProgramOf Plain program.entry p → AreKept p kept.now → imported ≡ length (partial.open_of p Function)
        → xs ≡ (partial.relocatable p).exports) }
{
    let exports = exports_in(
        alloc,
        program.objects,
        program.tables,
        kept,
        imported,
        kept.functions(),
    )?;
    Ok(exports)
}
