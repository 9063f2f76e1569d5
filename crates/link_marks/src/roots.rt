//! From which chunks the live ones are reached.
ghost use Rattle.std.specs.Prelude.{◌≡◌, ◌++◌, ◌<◌, ◌^◌, filter_map, length, OnOk, IfOk};
ghost use Rattle.link_marks.specs.Seen.{winner_numbers, is_not_stripped, number_not_stripped, is_root, is_retained_part, places_from, roots_seen};

use crate::chunks::number_defined;
use crate::numbers::push_some;
use link_program::{Content, Part, Tables, Winner};
use linking_section::{NO_STRIP, RETAIN};
use mark_bits::ChunkTable;
use std::alloc::Global;
use wl_base::{OutOfMemory, Seq};

/// Adds the chunks of winners.
fn add_winners(
    roots: &mut Seq<u32>,
    chunks: &ChunkTable,
    winners: &[Winner],
) -> Result<(), OutOfMemory>
    ensures { OnOk result (roots.new ≡ roots.old ++ winner_numbers chunks.now winners.now) }
{
    for winner in winners {
        push_some(roots, number_defined(chunks, winner.definition))?;
    }
    Ok(())
}

/// Whether a winner is of an object and has NO_STRIP.
fn is_not_stripped(winner: &Winner) -> bool
    ensures { result ≡ is_not_stripped winner.now }
{
    winner.definition.input != 0 && winner.flags & NO_STRIP != 0
}

/// The number of the chunk of a winner that has NO_STRIP.
fn number_not_stripped(chunks: &ChunkTable, winner: &Winner) -> Option<u32>
    ensures { result ≡ number_not_stripped chunks.now winner.now }
{
    if is_not_stripped(winner) {
        number_defined(chunks, winner.definition)
    } else {
        None
    }
}

/// Adds the chunks of the winners that have NO_STRIP.
fn add_not_stripped(
    roots: &mut Seq<u32>,
    chunks: &ChunkTable,
    winners: &[Winner],
) -> Result<(), OutOfMemory>
    ensures { OnOk result (roots.new ≡ roots.old ++ filter_map (number_not_stripped chunks.now) winners.now) }
{
    for winner in winners {
        push_some(roots, number_not_stripped(chunks, winner))?;
    }
    Ok(())
}

/// Whether a part is a segment that has RETAIN.
fn is_retained(part: &Part) -> bool
    ensures { result ≡ is_retained_part part.now }
{
    match part.content {
        Content::Segment { align: _, flags } => flags & RETAIN != 0,
        Content::Function(_) | Content::Global { .. } | Content::Made => false,
    }
}

/// Whether a part is a root by itself: a segment that has RETAIN, or where all are asked for any part of an object.
fn is_root(all: bool, part: &Part) -> bool
    ensures { result ≡ is_root all part.now }
{
    if all {
        part.chunk.input != 0
    } else {
        is_retained(part)
    }
}

/// Adds the parts that are roots by themselves.
fn add_parts(roots: &mut Seq<u32>, parts: &[Part], all: bool) -> Result<(), OutOfMemory>
    requires { length parts.now < 2 ^ 32 }
    ensures { OnOk result (roots.new ≡ roots.old ++ places_from (is_root all) 0 parts.now) }
{
    for place in 0..parts.len() {
        if is_root(all, &parts[place]) {
            roots.push(place as u32)?;
        }
    }
    Ok(())
}

/// The numbers of the roots: what is exported, the winners that have NO_STRIP, the segments that have RETAIN, and without garbage
/// collection all parts of objects.
pub(crate) fn roots_of(
    alloc: Global,
    tables: &Tables,
    gc: bool,
    exports: &[Winner],
) -> Result<Seq<u32>, OutOfMemory>
    requires { length tables.now.parts < 2 ^ 32 }
    ensures { IfOk result (λ roots. roots ≡ roots_seen tables.now.chunks gc exports.now tables.now.winners tables.now.parts) }
{
    let mut roots = Seq::new(alloc);
    add_winners(&mut roots, &tables.chunks, exports)?;
    add_not_stripped(&mut roots, &tables.chunks, tables.winners.as_slice())?;
    add_parts(&mut roots, tables.parts.as_slice(), false)?;
    if !gc {
        add_parts(&mut roots, tables.parts.as_slice(), true)?;
    }
    Ok(roots)
}
