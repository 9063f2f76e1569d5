//! The debug sections of a link, joined.
ghost use Rattle.std.specs.Prelude.{◌≡◌, ℕ, List, Result};
ghost use Rattle.link_program.specs.wl_base.declared.fault.Fault.{Fault as Refusal};
ghost use Rattle.link_program.specs.image_emit.Pieces.{code_place, source_places};
ghost use Rattle.link_program.specs.link_rules.ModeOf.{mode_of};
ghost use Rattle.link_program.specs.Answers.{Answers};
ghost use Rattle.link_program.specs.Live.{AreLive};
ghost use Rattle.link_program.specs.Loaded.{IsLoaded};
ghost use Rattle.link_layout.specs.Layout.{IsLayout};
ghost use Rattle.debug_tails.specs.Tails.{laid_tail};
ghost use Rattle.debug_out.specs.Answers.{Answers as DebugAnswers};
ghost use Rattle.debug_places.specs.Tails.{LoadedStage, the_tree};

use crate::places::debug_places;
use debug_out::{DebugError, join_debug_by};
use image_emit::Measured;
use link_layout::Layout;
use link_program::{Home, LinkError};
use std::alloc::Global;
use std::thread::Threads;
use wl_base::Seq;
use wl_fan::Workers;

/// The same answer in the words of a link.
fn answered(joined: Result<Seq<u8>, DebugError>) -> Result<Seq<u8>, LinkError>
    ensures { (said : Result (List ℕ) Refusal) → DebugAnswers joined said → Answers (λ bytes. bytes) result said }
{
    match joined {
        Ok(tail) => Ok(tail),
        Err(DebugError::Refused(fault)) => Err(LinkError::Refused(fault)),
        Err(DebugError::OutOfMemory) => Err(LinkError::OutOfMemory),
    }
}

/// What stands behind the bytes of a link's output: the debug sections of its objects, joined, where the
/// words ask for them, and else nothing. `live` are the numbers of the live parts, `measured` tells where
/// the code and the sources of the output's image stand and how long it is, and `homes` where each input
/// stands.
///
/// # Errors
///
/// `Refused` with `BadDebug`, the first section by object and by place whose relocations are broken;
/// else with `DebugTooLong`, where the output would have more than 2^31 - 1 bytes. `OutOfMemory`.
pub fn debug_tail<R: Threads + Sync>(
    rt: &R,
    alloc: Global,
    layout: Layout<'_>,
    live: &[u32],
    measured: &Measured,
    homes: &[Home],
    files: &[Seq<u8>],
    workers: Workers,
) -> Result<Seq<u8>, LinkError>
    ghost s: { LoadedStage }
    requires layout { IsLayout s.stage.program s.stage.parts s.stage.exports layout }
    requires live { AreLive s.stage.program live.now s.stage.parts }
    requires places { measured.now.places ≡ source_places (the_tree s.stage) }
    requires code { measured.now.code ≡ code_place (the_tree s.stage) }
    requires loaded { IsLoaded s.stage.program.files s.all s.stage.program.objects homes.now }
    requires files { files.now ≡ s.stage.program.files }
    ensures { Answers (λ bytes. bytes) result (laid_tail (mode_of s.stage.program.plan) s.stage.program s.all s.stage.exports s.stage.parts measured.now.len) }
{
    let plan = layout.program.plan;
    if !plan.keep_debug {
        return Ok(Seq::new(alloc));
    }
    let places = debug_places(alloc, layout, live, measured, homes)?;
    let joined = join_debug_by(rt, alloc, layout.program.objects, files, &places, workers);
    answered(joined)
}
