//! What is written into the windows of all sources.
ghost use Rattle.std.specs.Prelude.{◌∷◌, [], flat_map};
ghost use Rattle.link_program.specs.wl_base.Answers.{Answers};
ghost use Rattle.link_program.specs.made_symbols.declared.mode.Mode.TheVariants.{Plain};
ghost use Rattle.link_program.specs.reloc_apply.Windows.{IsSum, Puts};
ghost use Rattle.link_program.specs.Moved.{moved_window};
ghost use Rattle.link_layout.specs.Seen.{AreTargets};
ghost use Rattle.link_layout.specs.Rows.{moved_sources};
ghost use Rattle.link_layout.specs.Put.{written_on, written_of};
ghost use Rattle.link_layout.specs.Sources.{plain_windows, windows_of};
ghost use Rattle.link_layout.specs.Layout.{looked, AreThere};

use crate::Layout;
use crate::gathering::{Source, count_windows, sources_of};
use crate::held::push_held_sources;
use crate::sharing::shared_patches;
use crate::usual::usual_targets;
use link_program::{Mode, mode_of, row_at};
use patch_pieces::Pieces;
use reloc_apply::{Patches, Window};
use std::alloc::Global;
use std::thread::Threads;
use wl_base::LayoutError;
use wl_fan::Workers;

/// Fewer windows are written by the caller's thread alone.
const LEAST_SHARED: usize = 200_000;

/// Puts what is written into a window behind the others, so much later.
fn push_patch(patches: &mut Patches, window: Window, by: u64) -> Result<(), LayoutError>
    requires { IsSum window }
    ensures { Puts result patches.new.patches (written_on Plain patches.old.patches (moved_window by window ∷ [])) }
{
    let Some(place) = by.checked_add(window.place) else {
        return Err(LayoutError::OutOfMemory);
    };
    patches.push(&Window { place, ..window })
}

/// Puts what is written into the windows of a source of a plain output behind the others.
fn push_source(
    patches: &mut Patches,
    layout: Layout<'_>,
    targets: &[u64],
    source: Source,
) -> Result<(), LayoutError>
    requires there { AreThere layout }
    requires targets { AreTargets (looked layout) targets.now }
    ensures { Puts result patches.new.patches (written_on Plain patches.old.patches (plain_windows (looked layout.entry) source)) }
{
    let row = row_at(layout.program.tables, source.number);
    for named in row {
        let window = layout.window_by(targets, named);
        push_patch(patches, window, source.place)?;
    }
    Ok(())
}

/// Puts what is written into the windows of sources of a plain output behind the others.
fn push_plain_sources(
    patches: &mut Patches,
    layout: Layout<'_>,
    targets: &[u64],
    sources: &[Source],
) -> Result<(), LayoutError>
    requires there { AreThere layout }
    requires targets { AreTargets (looked layout) targets.now }
    ensures { Puts result patches.new.patches (written_on Plain patches.old.patches (flat_map (plain_windows (looked layout.entry)) sources.now)) }
{
    for source in sources {
        push_source(patches, layout, targets, *source)?;
    }
    Ok(())
}

/// Puts what is written into the windows of sources behind the others.
#[tactic(auto, using(crate::proofs::Patched::puts_plain, crate::proofs::Patched::puts_shared))]
pub(crate) fn push_sources(
    patches: &mut Patches,
    layout: Layout<'_>,
    targets: &[u64],
    sources: &[Source],
) -> Result<(), LayoutError>
    requires there { AreThere layout }
    requires targets { AreTargets (looked layout) targets.now }
    ensures { Puts result patches.new.patches (written_on (looked layout.entry).mode patches.old.patches (windows_of (looked layout.entry) sources.now)) }
{
    match mode_of(layout.program.plan) {
        Mode::Plain => push_plain_sources(patches, layout, targets, sources),
        Mode::Shared => push_held_sources(patches, layout, targets, sources),
    }
}

/// What is written into the windows of sources, of which there are so many, one after another.
fn patches_in_turn(
    alloc: Global,
    layout: Layout<'_>,
    targets: &[u64],
    sources: &[Source],
    count: usize,
) -> Result<Pieces, LayoutError>
    requires there { AreThere layout }
    requires targets { AreTargets (looked layout) targets.now }
    ensures { Answers result (written_of (looked layout.entry).mode (windows_of (looked layout.entry) sources.now)) }
{
    let mut patches = Patches::with_capacity(alloc, count)?;
    push_sources(&mut patches, layout, targets, sources)?;
    let pieces = Pieces::of(alloc, patches)?;
    Ok(pieces)
}

/// What is written into the windows of sources: by the workers, where there are many; and one after another where there are few, or where
/// one of the workers was refused, so that the first fault is answered.
fn patches_by<R: Threads + Sync>(
    rt: &R,
    alloc: Global,
    layout: Layout<'_>,
    targets: &[u64],
    sources: &[Source],
    workers: Workers,
) -> Result<Pieces, LayoutError>
    requires there { AreThere layout }
    requires targets { AreTargets (looked layout) targets.now }
    ensures { Answers result (written_of (looked layout.entry).mode (windows_of (looked layout.entry) sources.now)) }
{
    let count = count_windows(layout.program.tables, sources);
    if workers.count() > 1 && count >= LEAST_SHARED {
        let shared = shared_patches(rt, alloc, layout, targets, sources, count, workers)?;
        if let Some(pieces) = shared {
            return Ok(pieces);
        }
    }
    patches_in_turn(alloc, layout, targets, sources, count)
}

/// What is written into the windows of all sources, by the data alone.
pub(crate) fn all_patches<R: Threads + Sync>(
    rt: &R,
    alloc: Global,
    layout: Layout<'_>,
    live: &[u32],
    places: &[u64],
    workers: Workers,
) -> Result<Pieces, LayoutError>
    requires { AreThere layout }
    ensures { Answers result (written_of (looked layout.entry).mode (moved_sources (looked layout.entry) live.now places.now)) }
{
    let sources = sources_of(rt, alloc, layout, live, places, workers)?;
    let targets = usual_targets(rt, alloc, layout, workers)?;
    patches_by(rt, alloc, layout, &targets, &sources, workers)
}
