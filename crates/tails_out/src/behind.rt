//! The sections in their order: debug sections, names, features.
ghost use Rattle.std.specs.Prelude.{◌≡◌, ℕ, List, Result, is_some};
ghost use Rattle.link_program.specs.wl_base.declared.fault.Fault.{Fault as Refusal};
ghost use Rattle.link_program.specs.link_rules.ModeOf.{mode_of};
ghost use Rattle.link_program.specs.image_emit.Pieces.{code_place, source_places};
ghost use Rattle.link_program.specs.Answers.{Answers};
ghost use Rattle.link_program.specs.Live.{AreLive};
ghost use Rattle.link_program.specs.Loaded.{IsLoaded};
ghost use Rattle.link_layout.specs.Layout.{IsLayout};
ghost use Rattle.debug_out.specs.Answers.{Answers as Tells};
ghost use Rattle.debug_places.specs.Tails.{LoadedStage, the_tree};
ghost use Rattle.link_tails.specs.Tails.{further, laid_features, laid_more, laid_whole};

use debug_out::DebugError;
use debug_places::{debug_tail, object_spans};
use image_emit::Measured;
use link_layout::Layout;
use link_plan::Plan;
use link_program::{Home, LinkError};
use names_out::name_tail;
use object_features::feature_tail;
use std::alloc::Global;
use std::thread::Threads;
use wl_base::{Fault, Seq};
use wl_fan::Workers;

/// The longest output is 2^31 - 1 bytes.
const LONGEST: u64 = 0x7FFF_FFFF;

/// Puts more behind the debug sections of an output of so many bytes.
fn put_behind(mut debug: Seq<u8>, more: &[u8], len: u64) -> Result<Seq<u8>, LinkError>
    ensures { Answers (λ bytes. bytes) result (further len debug more.now) }
{
    if more.is_empty() {
        return Ok(debug);
    }
    debug.extend_from_slice(more)?;
    let Some(needed) = len.checked_add(debug.as_slice().len() as u64) else {
        return Err(LinkError::OutOfMemory);
    };
    if needed > LONGEST {
        return Err(LinkError::Refused(Fault::DebugTooLong { needed }));
    }
    Ok(debug)
}

/// The same answer in the words of a link.
fn answered(told: Result<Seq<u8>, DebugError>) -> Result<Seq<u8>, LinkError>
    ensures { (said : Result (List ℕ) Refusal) → Tells told said → Answers (λ bytes. bytes) result said }
{
    match told {
        Ok(section) => Ok(section),
        Err(DebugError::Refused(fault)) => Err(LinkError::Refused(fault)),
        Err(DebugError::OutOfMemory) => Err(LinkError::OutOfMemory),
    }
}

/// Whether the words ask for features.
fn asks_features(plan: &Plan) -> bool
    ensures { result ≡ is_some plan.now.features }
{
    plan.features.is_some()
}

/// The section of the features that the objects use, where the words ask for it.
fn features_behind(
    alloc: Global,
    layout: Layout<'_>,
    homes: &[Home],
    files: &[Seq<u8>],
) -> Result<Seq<u8>, LinkError>
    ghost s: { LoadedStage }
    requires layout { IsLayout s.stage.program s.stage.parts s.stage.exports layout }
    requires loaded { IsLoaded s.stage.program.files s.all s.stage.program.objects homes.now }
    requires files { files.now ≡ s.stage.program.files }
    ensures { Answers (λ bytes. bytes) result (laid_features s.stage.program s.all) }
{
    let program = layout.program;
    if !asks_features(program.plan) {
        return Ok(Seq::new(alloc));
    }
    let spans = object_spans(alloc, homes, program.objects)?;
    let told = feature_tail(
        alloc,
        &program.plan.features,
        program.objects,
        files,
        spans.as_slice(),
    );
    answered(told)
}

/// What stands behind the debug sections: the names of the functions, and the features.
fn names_and_features(
    alloc: Global,
    layout: Layout<'_>,
    homes: &[Home],
    files: &[Seq<u8>],
) -> Result<Seq<u8>, LinkError>
    ghost s: { LoadedStage }
    requires layout { IsLayout s.stage.program s.stage.parts s.stage.exports layout }
    requires loaded { IsLoaded s.stage.program.files s.all s.stage.program.objects homes.now }
    requires files { files.now ≡ s.stage.program.files }
    ensures { Answers (λ bytes. bytes) result (laid_more (mode_of s.stage.program.plan) s.stage.program s.all s.stage.exports s.stage.parts) }
{
    let mut more = name_tail(alloc, layout)?;
    let features = features_behind(alloc, layout, homes, files)?;
    more.extend_from_slice(features.as_slice())?;
    Ok(more)
}

/// What stands behind the bytes of a link's output: the debug sections of its objects, the names of its functions and the features that the
/// objects use, each where the words ask for it. `live` are the numbers of the live parts, `measured` tells where the code and the sources of
/// the output's image stand and how long it is, and `homes` where each input stands.
///
/// # Errors
///
/// `Refused` with `BadDebug`, the first debug section by object and by place whose relocations are broken; else with `DebugTooLong`, where the output
/// would have more than 2^31 - 1 bytes with its debug sections; else with `Malformed` or `Feature`, the first fault of what objects say of
/// features; else with `DebugTooLong`, where it would have more than 2^31 - 1 bytes with all. `OutOfMemory`.
pub fn tail_behind<R: Threads + Sync>(
    rt: &R,
    alloc: Global,
    layout: Layout<'_>,
    live: &[u32],
    measured: &Measured,
    homes: &[Home],
    files: &[Seq<u8>],
    workers: Workers,
) -> Result<Seq<u8>, LinkError>
    ghost s: { LoadedStage }
    requires layout { IsLayout s.stage.program s.stage.parts s.stage.exports layout }
    requires live { AreLive s.stage.program live.now s.stage.parts }
    requires places { measured.now.places ≡ source_places (the_tree s.stage) }
    requires code { measured.now.code ≡ code_place (the_tree s.stage) }
    requires loaded { IsLoaded s.stage.program.files s.all s.stage.program.objects homes.now }
    requires files { files.now ≡ s.stage.program.files }
    ensures { Answers (λ bytes. bytes) result (laid_whole (mode_of s.stage.program.plan) s.stage.program s.all s.stage.exports s.stage.parts measured.now.len) }
{
    let debug = debug_tail(rt, alloc, layout, live, measured, homes, files, workers)?;
    let more = names_and_features(alloc, layout, homes, files)?;
    let whole = put_behind(debug, more.as_slice(), measured.len);
    whole
}
