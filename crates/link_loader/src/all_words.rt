//! All words that depend on where a shared output is loaded: those of live data by rising offset, and then the own cells of addresses by rising number.
ghost use Rattle.std.specs.Prelude.{◌≡◌, true, IfOk, IsTrue};
ghost use Rattle.std.specs.List.{list_all};
ghost use Rattle.link_program.specs.link_rules.ModeOf.{mode_of as asked_mode};
ghost use Rattle.link_program.specs.link_rules.Loader as loader;
ghost use Rattle.link_program.specs.link_rules.Output.{layout as laid_out};
ghost use Rattle.link_program.specs.made_symbols.declared.mode.Mode.TheVariants.{Shared};
ghost use Rattle.link_program.specs.Live.{Stage, AreLive};
ghost use Rattle.link_layout.specs.Layout.{looked, IsLayout};
ghost use Rattle.link_loader.specs.Cells.{all_tell};
ghost use Rattle.link_loader.specs.Words.{told_part, words_seen};
ghost use Rattle.link_loader.specs.Layout.{loading};

use crate::cells::all_tell;
use crate::own::add_cells;
use crate::windows::{add_segments, all_are_told};
use dylink_out::WordReloc;
use link_layout::Layout;
use link_program::{Mode, mode_of};
use std::alloc::Global;
use wl_base::{OutOfMemory, Seq};

// The words, by the data alone.
fn words_seen(
    alloc: Global,
    layout: Layout<'_>,
    live: &[u32],
) -> Result<Seq<WordReloc>, OutOfMemory>
    ghost s: { Stage }
    requires { IsLayout s.program s.parts s.exports layout }
    ensures { IfOk result (λ words. words ≡ words_seen (loading s layout.entry) live.now) }
{
    let mut words = Seq::new(alloc);
    add_segments(&mut words, layout, live)?;
    add_cells(&mut words, layout)?;
    Ok(words)
}

// Whether the words of the data are those of the definition, which holds of all that the earlier steps let through.
fn are_told(layout: Layout<'_>, live: &[u32]) -> bool
    ensures cells { IsTrue result → all_tell layout.entry.program.names.now.names layout.entry.program.resolution.now.imports layout.entry.program.resolution.now.cells 0 layout.entry.program.tables.now.symbols ≡ true }
    ensures windows { IsTrue result → list_all (told_part (looked layout.entry)) live.now ≡ true }
{
    all_tell(layout.program) && all_are_told(layout, live)
}

// The words of a shared output.
fn shared_words(
    alloc: Global,
    layout: Layout<'_>,
    live: &[u32],
) -> Result<Seq<WordReloc>, OutOfMemory>
    ghost s: { Stage }
    requires layout { IsLayout s.program s.parts s.exports layout }
    requires live { AreLive s.program live.now s.parts }
    requires shared { asked_mode s.program.plan ≡ Shared }
    ensures { IfOk result (λ words. words ≡ loader.words (asked_mode s.program.plan) s.program s.parts (laid_out (asked_mode s.program.plan) s.program s.parts s.exports)) }
{
    if !are_told(layout, live) {
        return Err(OutOfMemory);
    }
    let words = words_seen(alloc, layout, live)?;
    Ok(words)
}

/// What `__wasm_apply_data_relocs` of a shared output makes right when it is loaded: each window of live data by rising offset, then each own
/// cell of an address by rising number. `live` has the numbers of the live parts.
///
/// # Errors
///
/// Memory is refused; and of a plain output, which has no such function, it is always answered.
pub fn words(alloc: Global, layout: Layout<'_>, live: &[u32]) -> Result<Seq<WordReloc>, OutOfMemory>
    ghost s: { Stage }
    requires layout { IsLayout s.program s.parts s.exports layout }
    requires live { AreLive s.program live.now s.parts }
    ensures { IfOk result (λ words. words ≡ loader.words (asked_mode s.program.plan) s.program s.parts (laid_out (asked_mode s.program.plan) s.program s.parts s.exports)) }
{
    match mode_of(layout.program.plan) {
        Mode::Plain => Err(OutOfMemory),
        Mode::Shared => {
            let words = shared_words(alloc, layout, live)?;
            Ok(words)
        }
    }
}
