//! What is said of the data segments of the object.
ghost use Rattle.std.specs.Prelude.{◌≡◌, false, Some, map, option_and_then, slice_get, IfOk, OnOk};
ghost use Rattle.partial_tree.specs.link_program.made_symbols.declared.mode.Mode.TheVariants.{Plain};
ghost use Rattle.partial_tree.specs.link_program.name_entries.View.{InputsRise};
ghost use Rattle.partial_tree.specs.link_program.link_rules.Program.{Program as Rules};
ghost use Rattle.partial_tree.specs.link_program.Program.{IsProgramOf};
ghost use Rattle.partial_tree.specs.partial_rules.Partial as partial;
ghost use Rattle.partial_bytes.specs.Told.{info_told};
ghost use Rattle.partial_items.specs.Owned.{object_at};
ghost use Rattle.partial_items.specs.Items as told;
ghost use Rattle.partial_items.specs.Items.{chunk_of};

use crate::owned::{owner_of, segment_in};
use partial_bytes::InfoRow;
use partial_tree::{Object, Program, Tables, part_at};
use std::alloc::Global;
use wl_base::{OutOfMemory, Seq};

/// What is said of the segment of a part's number, whose object stands at a place.
fn info_for<'a>(
    objects: &'a [Object],
    place: Option<usize>,
    tables: &Tables,
    part: u32,
) -> InfoRow<'a>
    requires { option_and_then (slice_get objects.now) place ≡ object_at objects.now (chunk_of tables.now part).input }
    ensures { info_told result ≡ told.info_for objects.now tables.now part }
{
    match segment_in(objects, place, part_at(tables, part).chunk.index) {
        Some(segment) => InfoRow {
            name: segment.name,
            align: segment.align,
            flags: segment.flags,
        },
        None => InfoRow {
            name: &[],
            align: 0,
            flags: 0,
        },
    }
}

/// What is said of the segments of these numbers.
fn infos_in<'a>(
    alloc: Global,
    objects: &'a [Object],
    tables: &Tables,
    segments: &[u32],
) -> Result<Seq<InfoRow<'a>>, OutOfMemory>
    requires { InputsRise 0 objects.now }
    ensures { IfOk result (λ is. map info_told is ≡ map (told.info_for objects.now tables.now) segments.now) }
{
    let mut rows = Seq::new(alloc);
    let mut near = 0;
    for part in segments {
        let place = owner_of(objects, near, tables, *part);
        rows.push(info_for(objects, place, tables, *part))?;
        near = place.unwrap_or(near);
    }
    Ok(rows)
}

/// What is said of the segments of the object that a partial link makes of a program, of kept segments by the numbers of their parts.
pub fn infos_of<'a>(
    alloc: Global,
    program: Program<'a>,
    segments: &[u32],
) -> Result<Seq<InfoRow<'a>>, OutOfMemory>
    requires { InputsRise 0 program.objects.now }
    ensures { IfOk result (λ is. (p : Rules) → IsProgramOf Plain program.entry p → p.plan.loose_calls ≡ false
        → map (slice_get p.parts) segments.now ≡ map Some (partial.kept p 1) → map info_told is ≡ (partial.relocatable p).infos) }
{
    let rows = infos_in(alloc, program.objects, program.tables, segments)?;
    Ok(rows)
}
