//! Where the things of a link are that debug sections name.
ghost use Rattle.std.specs.Prelude.{◌≡◌, map, IfOk};
ghost use Rattle.link_program.specs.image_emit.Pieces.{code_place, source_places};
ghost use Rattle.link_program.specs.link_rules.ModeOf.{mode_of};
ghost use Rattle.link_program.specs.link_rules.Output.{layout as layout_by};
ghost use Rattle.link_program.specs.Live.{Stage, AreLive};
ghost use Rattle.link_layout.specs.Layout.{IsLayout};
ghost use Rattle.link_debug.specs.Places.{link_places};
ghost use Rattle.debug_out.specs.Inputs.{places_of};
ghost use Rattle.debug_places.specs.declared.rows.Asked.TheVariants as asked;
ghost use Rattle.debug_places.specs.Spans.{span_seen};
ghost use Rattle.debug_places.specs.Seen.{place_meant, rows_by, sight_of};
ghost use Rattle.debug_places.specs.Bodies.{body_row, code_of};
ghost use Rattle.debug_places.specs.Tails.{the_tree};

use crate::addresses::made_addresses;
use crate::bodies::{Bodies, body_rows};
use crate::live::marked;
use crate::rows::{Asked, View, rows};
use crate::spans::spans;
use debug_out::DebugPlaces;
use image_emit::Measured;
use link_layout::Layout;
use link_program::Home;
use std::alloc::Global;
use wl_base::OutOfMemory;

/// All places, by the addresses of the linker's own data and by which parts are live.
fn all_places(
    alloc: Global,
    layout: Layout<'_>,
    made: &[u64],
    live: &[bool],
    measured: &Measured,
    homes: &[Home],
) -> Result<DebugPlaces, OutOfMemory>
    ensures bodies { IfOk result (λ d. d.bodies ≡ map (body_row (code_of layout.entry measured.now)) layout.entry.program.objects.now) }
    ensures addresses { IfOk result (λ d. d.addresses ≡ rows_by (place_meant (sight_of layout.entry made.now live.now) asked.Address) layout.entry.program.objects.now layout.entry.program.tables.now.symbols) }
    ensures slots { IfOk result (λ d. d.slots ≡ rows_by (place_meant (sight_of layout.entry made.now live.now) asked.Slot) layout.entry.program.objects.now layout.entry.program.tables.now.symbols) }
    ensures globals { IfOk result (λ d. d.globals ≡ rows_by (place_meant (sight_of layout.entry made.now live.now) asked.Global) layout.entry.program.objects.now layout.entry.program.tables.now.symbols) }
    ensures inputs { IfOk result (λ d. d.inputs ≡ map (λ o. span_seen homes.now o.input) layout.entry.program.objects.now) }
    ensures length { IfOk result (λ d. d.length ≡ measured.now.len) }
{
    let objects = layout.program.objects;
    let symbols = layout.program.tables.symbols.as_slice();
    let code = Bodies {
        numbering: layout.numbering,
        imported: layout.numbering.imported(),
        places: measured.places.as_slice(),
        code: measured.code,
    };
    let view = View { layout, made, live };
    let inputs = spans(alloc, homes, objects)?;
    let bodies = body_rows(alloc, code, objects)?;
    let addresses = rows(alloc, view, Asked::Address, objects, symbols)?;
    let slots = rows(alloc, view, Asked::Slot, objects, symbols)?;
    let globals = rows(alloc, view, Asked::Global, objects, symbols)?;
    Ok(DebugPlaces {
        inputs,
        bodies,
        addresses,
        slots,
        globals,
        length: measured.len,
    })
}

/// Where the bodies of functions, the addresses of data, slots and numbers of globals of a link are, by
/// object and symbol, and where the bytes of the objects stand. Addresses in a shared output count from
/// `__memory_base`, and slots from `__table_base`. `live` are the numbers of the live
/// parts, `measured` tells where the code and the sources of the output's image stand, and `homes` where
/// each input stands.
///
/// An address or place of 2^32 and more is answered as want of memory.
pub fn debug_places(
    alloc: Global,
    layout: Layout<'_>,
    live: &[u32],
    measured: &Measured,
    homes: &[Home],
) -> Result<DebugPlaces, OutOfMemory>
    ghost s: { Stage }
    requires layout { IsLayout s.program s.parts s.exports layout }
    requires live { AreLive s.program live.now s.parts }
    requires places { measured.now.places ≡ source_places (the_tree s) }
    requires code { measured.now.code ≡ code_place (the_tree s) }
    ensures places { IfOk result (λ d. places_of d ≡ link_places (mode_of s.program.plan) s.program s.parts s.exports (layout_by (mode_of s.program.plan) s.program s.parts s.exports)) }
    ensures inputs { IfOk result (λ d. d.inputs ≡ map (λ o. span_seen homes.now o.input) s.program.objects) }
    ensures length { IfOk result (λ d. d.length ≡ measured.now.len) }
{
    let made = made_addresses(alloc, layout)?;
    let flags = marked(alloc, layout.program.tables.parts.len(), live)?;
    let places = all_places(alloc, layout, made.as_slice(), &flags, measured, homes)?;
    Ok(places)
}
