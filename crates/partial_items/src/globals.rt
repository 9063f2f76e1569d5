//! The globals of the object: those of all kept parts, each with the bytes by which its own object spells its first value.
ghost use Rattle.std.specs.Prelude.{◌≡◌, ◌-◌, ◌++◌, [], false, Some, map, filter_map, option_map, option_and_then, slice_get, IfOk, OnOk};
ghost use Rattle.std.specs.List.{cons_option};
ghost use Rattle.partial_tree.specs.link_program.made_symbols.declared.mode.Mode.TheVariants.{Plain};
ghost use Rattle.partial_tree.specs.link_program.name_entries.View.{InputsRise};
ghost use Rattle.partial_tree.specs.link_program.link_rules.Program.{Program as Rules};
ghost use Rattle.partial_tree.specs.link_program.Program.{IsProgramOf};
ghost use Rattle.partial_tree.specs.partial_rules.Partial as partial;
ghost use Rattle.partial_bytes.specs.Told.{global_told};
ghost use Rattle.partial_items.specs.Owned.{object_at};
ghost use Rattle.partial_items.specs.Items as told;
ghost use Rattle.partial_items.specs.Items.{chunk_of};

use crate::owned::{global_in, owner_of};
use partial_bytes::{GlobalRow, bytes_in};
use partial_tree::{GlobalDef, Object, Program, Tables, part_at};
use std::alloc::Global;
use wl_base::{FileSpan, InputId, OutOfMemory, Seq};

/// Where the bytes of a global's expression stand. Every input is a file of its own.
fn source(input: InputId, global: GlobalDef) -> FileSpan
    ensures { result ≡ told.global_source input global }
{
    FileSpan {
        file: input.saturating_sub(1),
        span: global.span,
    }
}

/// The global of an input.
fn spelled<'a>(files: &'a [Seq<u8>], input: InputId, global: GlobalDef) -> GlobalRow<'a>
    ensures { global_told result ≡ told.spelled files.now input global }
{
    GlobalRow {
        kind: global.kind,
        value: global.value,
        bytes: bytes_in(files, source(input, global)),
    }
}

/// The global of the part of a number, whose object stands at a place.
fn global_for<'a>(
    files: &'a [Seq<u8>],
    objects: &[Object],
    place: Option<usize>,
    tables: &Tables,
    part: u32,
) -> Option<GlobalRow<'a>>
    requires { option_and_then (slice_get objects.now) place ≡ object_at objects.now (chunk_of tables.now part).input }
    ensures { option_map global_told result ≡ told.global_for files.now objects.now tables.now part }
{
    let chunk = part_at(tables, part).chunk;
    let Some(global) = global_in(objects, place, chunk.index) else {
        return None;
    };
    Some(spelled(files, chunk.input, global))
}

/// Puts a global behind others, where there is one.
fn put<'a>(
    globals: &mut Seq<GlobalRow<'a>>,
    found: Option<GlobalRow<'a>>,
) -> Result<(), OutOfMemory>
    ensures { OnOk result (globals.new ≡ globals.old ++ cons_option found.entry []) }
{
    if let Some(global) = found {
        globals.push(global)?;
    }
    Ok(())
}

/// The globals of these numbers.
fn globals_in<'a>(
    alloc: Global,
    files: &'a [Seq<u8>],
    objects: &[Object],
    tables: &Tables,
    globals: &[u32],
) -> Result<Seq<GlobalRow<'a>>, OutOfMemory>
    requires { InputsRise 0 objects.now }
    ensures { IfOk result (λ gs. map global_told gs ≡ filter_map (told.global_for files.now objects.now tables.now) globals.now) }
{
    let mut rows = Seq::new(alloc);
    let mut near = 0;
    for part in globals {
        let place = owner_of(objects, near, tables, *part);
        put(&mut rows, global_for(files, objects, place, tables, *part))?;
        near = place.unwrap_or(near);
    }
    Ok(rows)
}

/// The globals of the object that a partial link makes of a program, of kept globals by the numbers of their parts. These are the files of
/// the link.
pub fn globals_of<'a>(
    alloc: Global,
    program: Program<'_>,
    files: &'a [Seq<u8>],
    globals: &[u32],
) -> Result<Seq<GlobalRow<'a>>, OutOfMemory>
    requires { InputsRise 0 program.objects.now }
    ensures { IfOk result (λ gs. (p : Rules) → IsProgramOf Plain program.entry p → p.plan.loose_calls ≡ false → files.now ≡ p.files
        → map (slice_get p.parts) globals.now ≡ map Some (partial.kept p 2) → map global_told gs ≡ (partial.relocatable p).globals) }
{
    let rows = globals_in(alloc, files, program.objects, program.tables, globals)?;
    Ok(rows)
}
