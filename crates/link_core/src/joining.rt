//! The partial link: plain objects are loaded by a plan that asks for nothing else, their names are found, and one relocatable object is made
//! of all that is kept (`partial_of` in partial_rules/specs/PartialLink.antt).
ghost use Rattle.std.specs.Prelude.{◌≡◌, length};
ghost use Rattle.link_output.specs.link_program.link_plan.Plan.{IsPlan};
ghost use Rattle.link_output.specs.link_program.Loaded.{IsLoaded};
ghost use Rattle.partial_rules.specs.PartialLink.{partial_of, partial_program};
ghost use Rattle.partial_inputs.specs.Refused.{IsBare, joined};
ghost use Rattle.link_core.specs.Answers.{Answers, IsShort};
ghost use Rattle.link_core.specs.Loading.{Loading, program_in};

use link_output::LinkError;
use link_plan::Plan;
use link_tails::{Inputs, load_inputs};
use partial_inputs::laws::inputs_come_first;
use partial_inputs::{bare_plan, refused_inputs};
use program_build::laws::parts_stand;
use program_build::{Found, find};
use relink_out::laws::partial_is_made;
use relink_out::partial;
use std::alloc::Global;
use std::mem::forget;
use std::thread::Threads;
use wl_base::Seq;
use wl_fan::Workers;
use wl_outside::Gate;

/// Joins the files into one relocatable object, or answers the first fault that applies.
pub(crate) fn join<R: Threads + Sync, G: Gate>(
    rt: &R,
    alloc: Global,
    plan: &Plan,
    files: &[Seq<u8>],
    workers: Workers,
    gate: &G,
) -> Result<Seq<u8>, LinkError>
    requires plan { IsPlan plan.now }
    ensures exact { Answers result (partial_of plan.now files.now) }
    ensures short { IsShort result }
{
    inputs_come_first();
    if let Some(fault) = refused_inputs(plan.inputs.as_slice(), files) {
        return Err(LinkError::Refused(fault));
    }
    // Words give a file for each input.
    if files.len() != plan.inputs.len() {
        return Err(LinkError::OutOfMemory);
    }
    let bare = bare_plan(alloc, plan)?;
    let answer = join_bare(rt, alloc, &bare, files, workers, gate);
    answer
}

// Joins the files of a plan that asks for nothing else.
fn join_bare<R: Threads + Sync, G: Gate>(
    rt: &R,
    alloc: Global,
    plan: &Plan,
    files: &[Seq<u8>],
    workers: Workers,
    gate: &G,
) -> Result<Seq<u8>, LinkError>
    requires plan { IsPlan plan.now }
    requires bare { IsBare plan.now }
    requires files { length files.now ≡ length plan.now.inputs }
    ensures exact { Answers result (joined plan.now files.now) }
    ensures short { IsShort result }
{
    let inputs = load_inputs(rt, alloc, plan, files, workers, gate)?;
    let answer = join_loaded(rt, alloc, plan, files, &inputs, workers, gate);
    forget(inputs);
    answer
}

// Makes the object of the loaded objects. The names aren't given back: each is a small piece.
fn join_loaded<R: Threads + Sync, G: Gate>(
    rt: &R,
    alloc: Global,
    plan: &Plan,
    files: &[Seq<u8>],
    inputs: &Inputs,
    workers: Workers,
    gate: &G,
) -> Result<Seq<u8>, LinkError>
    ghost l: { Loading }
    requires plan { IsPlan plan.now }
    requires bare { IsBare plan.now }
    requires same { l.origin.plan ≡ plan.now }
    requires files { l.origin.files ≡ files.now }
    requires objects { l.objects ≡ inputs.now.loaded }
    requires loaded { IsLoaded l.origin.files l.origin.all inputs.now.loaded inputs.now.homes }
    ensures exact { Answers result (partial_program (program_in l)) }
    ensures short { IsShort result }
{
    let objects = inputs.objects();
    let homes = inputs.homes();
    partial_is_made();
    let found = find(rt, alloc, plan, objects, homes, workers, gate)?;
    parts_stand();
    let program = found.program(plan, objects);
    let entries = found.view(objects);
    let answer = partial(rt, alloc, program, entries, files, workers);
    let Found { names, .. } = found;
    forget(names);
    answer
}
