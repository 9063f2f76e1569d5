//! From files to loaded objects.
ghost use Rattle.std.specs.Prelude.{◌≡◌, ◌<◌, ◌≤◌, ◌^◌, ℕ, All, List, Ok, IfOk, length, unwrap_or};
ghost use Rattle.link_program.specs.round_rules.Rounds.{Candidate, load};
ghost use Rattle.link_program.specs.round_rules.Inputs.{AreCandidates, IsRead};
ghost use Rattle.link_program.specs.link_plan.Plan.{IsPlan};
ghost use Rattle.link_program.specs.link_rules.ModeOf.{mode_of};
ghost use Rattle.link_program.specs.link_rules.LinkOf.{asked_names};
ghost use Rattle.link_program.specs.Answers.{Answers};
ghost use Rattle.link_inputs.specs.Inputs.{loaded_of};
ghost use Rattle.link_inputs.specs.Loaded.{AreInputs};
ghost use Rattle.link_inputs.specs.Steps.{all_inputs, Sourced, LoadsAll};

use crate::inputs::Inputs;
use crate::numbering::{Sources, number_inputs};
use crate::opening::open_files;
use crate::reading::read_given;
use crate::whole::refused;
use crate::words::words_of;
use lib_rounds::{GivenObject, LibraryFile, Loaded, RoundError, load_rounds};
use link_plan::Plan;
use link_program::{LinkError, asked_names, mode_of};
use std::alloc::Global;
use std::thread::Threads;
use wl_base::Seq;
use wl_fan::Workers;
use wl_outside::Gate;

/// Loads what is needed, where all objects of the words are read.
fn load_given<R: Threads + Sync>(
    rt: &R,
    alloc: Global,
    plan: &Plan,
    files: &[Seq<u8>],
    given: Seq<GivenObject>,
    libraries: &[LibraryFile],
    workers: u32,
) -> Result<Loaded, LinkError>
    ghost all: { List Candidate }
    requires workers { (1 ≤ workers) × (workers ≤ 64) }
    requires are { AreCandidates all given libraries.now files.now }
    requires read { All (IsRead files.now) libraries.now }
    ensures { Answers (λ l. l) result (load (mode_of plan.now) (asked_names plan.now) all) }
{
    let wanted = asked_names(alloc, plan)?;
    let Some(workers) = Workers::new(workers) else {
        unreachable!()
    };
    match load_rounds(
        rt,
        alloc,
        given,
        libraries,
        files,
        wanted.as_slice(),
        mode_of(plan),
        workers,
    ) {
        Ok(loaded) => Ok(loaded),
        Err(RoundError::Refused(fault)) => Err(LinkError::Refused(fault)),
        Err(RoundError::OutOfMemory) => Err(LinkError::OutOfMemory),
    }
}

/// Loads from inputs that are numbered.
fn load_sources<R: Threads + Sync, G: Gate>(
    rt: &R,
    alloc: Global,
    plan: &Plan,
    files: &[Seq<u8>],
    sources: Sources,
    workers: u32,
    gate: &G,
) -> Result<Inputs, LinkError>
    requires workers { (1 ≤ workers) × (workers ≤ 64) }
    requires sources { Sourced plan.now files.now sources }
    ensures { LoadsAll result plan.now files.now }
{
    let Sources {
        objects,
        libraries,
        homes,
    } = sources;
    match read_given(rt, alloc, files, objects.as_slice(), workers, gate) {
        Ok(given) => {
            let loaded = load_given(rt, alloc, plan, files, given, libraries.as_slice(), workers)?;
            Ok(Inputs { loaded, homes })
        }
        Err(first) => {
            let least = refused(alloc, files, libraries.as_slice(), first);
            Err(least)
        }
    }
}

/// Loads the inputs of a link from its files, one for each input word, or the generated objects.
///
/// A file that begins with a magic of `ar` is a library, which is read by its index; any other is an
/// object. The objects of the words are read by the workers, who pass the gate
/// before each; then the needed members are loaded, round after round, of which as many workers read
/// ahead what they can.
///
/// It is `Refused` by the first fault of these: too much input, the first library that can't be read,
/// too many inputs, the fault of the least input that is read at once, and what `load_rounds` says.
pub fn load_inputs<R: Threads + Sync, G: Gate>(
    rt: &R,
    alloc: Global,
    plan: &Plan,
    files: &[Seq<u8>],
    workers: Workers,
    gate: &G,
) -> Result<Inputs, LinkError>
    requires plan { IsPlan plan.now }
    requires files { length files.now ≡ unwrap_or plan.now.make_case (length plan.now.inputs) }
    // Which objects, or which fault.
    ensures exact { Answers (λ i. i.loaded) result (loaded_of (mode_of plan.now) plan.now files.now) }
    // They are those of the candidates, and each is sound in its place.
    ensures found { IfOk result (AreInputs (mode_of plan.now) plan.now files.now) }
{
    let opened = open_files(alloc, files)?;
    let words = words_of(alloc, plan, files.len())?;
    let sources = number_inputs(alloc, words.as_slice(), opened)?;
    load_sources(rt, alloc, plan, files, sources, workers.count(), gate)
}
