//! What functions run, and the table.
ghost use Rattle.std.specs.Prelude.{◌≡◌, map, IfOk};
ghost use Rattle.link_program.specs.name_entries.Fits.{FitsObjects};
ghost use Rattle.link_program.specs.made_symbols.declared.mode.Mode.TheVariants as modes;
ghost use Rattle.link_program.specs.link_rules.Output.{layout as laid_out};
ghost use Rattle.link_program.specs.Live.{Stage};
ghost use Rattle.link_image.specs.link_layout.Layout.{IsLayoutIn};
ghost use Rattle.link_worlds.specs.Names.{all_functions};
ghost use Rattle.link_worlds.specs.Worlds.{plan_function, plan_table};
ghost use Rattle.sym_functions.specs.SoughtOf.{IsSoughtOf};

use link_image::Layout;
use link_program::Entries;
use run_rules::Function;
use std::alloc::Global;
use sym_parts::{Sought, functions_of, least_entries, table_of};
use wl_base::{OutOfMemory, Seq};

/// All functions of a program, live or dead, as the objects have them.
pub fn functions(
    alloc: Global,
    layout: Layout<'_>,
    k: Sought<'_>,
    entries: Entries<'_>,
    files: &[Seq<u8>],
) -> Result<Seq<Option<Function>>, OutOfMemory>
    ghost s: { Stage }
    requires layout { IsLayoutIn modes.Plain s.program s.parts s.exports layout }
    requires sought { IsSoughtOf (laid_out modes.Plain s.program s.parts s.exports) layout k }
    requires fits { FitsObjects entries }
    requires objects { entries.objects.now ≡ layout.program.objects.now }
    requires names { entries.names.now ≡ layout.program.names.now }
    requires files { files.now ≡ s.program.files }
    ensures { IfOk result (λ fs. fs ≡ map (plan_function s.program (laid_out modes.Plain s.program s.parts s.exports)) (all_functions s.program)) }
{
    let program = layout.program;
    let firsts = least_entries(alloc, program.names, entries.count())?;
    let functions = functions_of(alloc, k, files, program.resolution, entries, &firsts)?;
    Ok(functions)
}

/// The table, as the layout fills it.
pub fn table(
    alloc: Global,
    layout: Layout<'_>,
    k: Sought<'_>,
) -> Result<Seq<Option<u32>>, OutOfMemory>
    ghost s: { Stage }
    requires layout { IsLayoutIn modes.Plain s.program s.parts s.exports layout }
    requires sought { IsSoughtOf (laid_out modes.Plain s.program s.parts s.exports) layout k }
    ensures { IfOk result (λ t. t ≡ plan_table s.program (laid_out modes.Plain s.program s.parts s.exports)) }
{
    let table = table_of(alloc, k.functions, layout.numbering)?;
    Ok(table)
}
