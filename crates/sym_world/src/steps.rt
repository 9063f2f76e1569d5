//! From files to the loaded objects as the machine takes them, by the steps of a link up to its layout.
ghost use Rattle.std.specs.Prelude.{◌≡◌, length, unwrap_or};
ghost use Rattle.link_program.specs.link_plan.Plan.{IsPlan};
ghost use Rattle.link_program.specs.made_symbols.declared.mode.Mode.TheVariants as modes;
ghost use Rattle.link_program.specs.link_rules.ModeOf.{mode_of};
ghost use Rattle.link_program.specs.link_rules.Program as rules;
ghost use Rattle.link_program.specs.Loaded.{IsLoaded};
ghost use Rattle.link_program.specs.Program.{IsProgram};
ghost use Rattle.link_program.specs.name_entries.Fits.{Fits};
ghost use Rattle.link_program.specs.Stand.{PartsStand};
ghost use Rattle.link_program.specs.Live.{Stage};
ghost use Rattle.link_core.specs.Chosen.{IsChosen};
ghost use Rattle.link_core.specs.Linking.{IsLinking};
ghost use Rattle.link_core.specs.Loading.{Loading, program_in};
ghost use Rattle.sym_world.specs.SymOf.{Told, sym_of, sym_program, sym_laid_out};
ghost use Rattle.sym_world.specs.Choosing.{Chooses, IsStage};

use crate::objects::objects;
use link_inputs::{Inputs, load_inputs};
use link_layout::{Layout, place_segments};
use link_marks::{Live, all_are_meant, exports, live_parts, repeated_export, unresolved};
use link_numbers::number;
use link_plan::Plan;
use link_program::{Entries, LinkError, Mode, Program, Winner, mode_of};
use lost_ctors::uncalled;
use program_build::find;
use program_build::laws::parts_stand;
use run_machines::SymWorld;
use std::alloc::Global;
use std::thread::Threads;
use wl_base::Seq;
use wl_fan::Workers;
use wl_outside::Gate;

/// What was chosen of a program.
#[derive(Drop)]
pub(crate) struct Chosen {
    /// The exported winners.
    pub(crate) exports: Seq<Winner>,
    /// The live parts.
    pub(crate) live: Live,
}

/// The loaded objects of a link as the machine takes them, with nothing linked: `run_machines::run_sym` runs them. There is one file for
/// each input of the plan, or as many as objects were generated. The workers do as those of a link: the answer doesn't depend on them.
///
/// # Errors
///
/// The first fault of the link up to its layout: of loading, of names, of exports, an unresolved name, lost constructors, too much memory, too large a table.
/// A link whose output is too long, or in which a reference is out of range, has its objects all the same. `OutOfMemory`, and for a plan that
/// asks for a shared output.
pub fn sym_world<R: Threads + Sync, G: Gate>(
    rt: &R,
    alloc: Global,
    plan: &Plan,
    files: &[Seq<u8>],
    workers: Workers,
    gate: &G,
) -> Result<SymWorld, LinkError>
    requires plan { IsPlan plan.now }
    requires files { length files.now ≡ unwrap_or plan.now.make_case (length plan.now.inputs) }
    ensures { Told result (sym_of plan.now files.now) }
{
    match mode_of(plan) {
        Mode::Plain => plain_world(rt, alloc, plan, files, workers, gate),
        Mode::Shared => Err(LinkError::OutOfMemory),
    }
}

// The same of a plan that asks for a plain output.
fn plain_world<R: Threads + Sync, G: Gate>(
    rt: &R,
    alloc: Global,
    plan: &Plan,
    files: &[Seq<u8>],
    workers: Workers,
    gate: &G,
) -> Result<SymWorld, LinkError>
    requires plan { IsPlan plan.now }
    requires files { length files.now ≡ unwrap_or plan.now.make_case (length plan.now.inputs) }
    requires plain { mode_of plan.now ≡ modes.Plain }
    ensures { Told result (sym_of plan.now files.now) }
{
    let inputs = load_inputs(rt, alloc, plan, files, workers, gate)?;
    let world = found_world(rt, alloc, plan, files, &inputs, workers, gate);
    world
}

// Finds what the names of the loaded objects mean.
fn found_world<R: Threads + Sync, G: Gate>(
    rt: &R,
    alloc: Global,
    plan: &Plan,
    files: &[Seq<u8>],
    inputs: &Inputs,
    workers: Workers,
    gate: &G,
) -> Result<SymWorld, LinkError>
    ghost l: { Loading }
    requires plan { IsPlan plan.now }
    requires same { l.origin.plan ≡ plan.now }
    requires files { l.origin.files ≡ files.now }
    requires objects { l.objects ≡ inputs.now.loaded }
    requires loaded { IsLoaded l.origin.files l.origin.all inputs.now.loaded inputs.now.homes }
    requires plain { mode_of plan.now ≡ modes.Plain }
    ensures { Told result (sym_program (program_in l)) }
{
    let objects = inputs.objects();
    let found = find(rt, alloc, plan, objects, inputs.homes(), workers, gate)?;
    parts_stand();
    let program = found.program(plan, objects);
    let entries = found.view(objects);
    let chosen = choose(rt, alloc, program, entries, workers, gate)?;
    let exports = chosen.exports.as_slice();
    let live = chosen.live.numbers.as_slice();
    let world = placed_world(rt, alloc, program, entries, files, exports, live, workers);
    world
}

// Chooses what is exported and what is live of a program.
fn choose<R: Threads + Sync, G: Gate>(
    rt: &R,
    alloc: Global,
    program: Program<'_>,
    entries: Entries<'_>,
    workers: Workers,
    gate: &G,
) -> Result<Chosen, LinkError>
    ghost p: { rules.Program }
    requires program { IsProgram program p }
    requires fits { Fits (mode_of p.plan) entries }
    requires objects { entries.objects.now ≡ program.objects.now }
    requires stand { PartsStand p }
    requires plain { mode_of p.plan ≡ modes.Plain }
    ensures { Chooses result program.entry p }
{
    let exports = exports(rt, alloc, program, workers, gate)?;
    repeated_export(alloc, program, exports.as_slice())?;
    let live = live_parts(rt, alloc, program, exports.as_slice(), workers, gate)?;
    unresolved(rt, alloc, program, &live, workers)?;
    uncalled(alloc, program, entries, &live)?;
    all_are_meant();
    Ok(Chosen { exports, live })
}

// Gives all that is live its place and its number.
fn placed_world<R: Threads + Sync>(
    rt: &R,
    alloc: Global,
    program: Program<'_>,
    entries: Entries<'_>,
    files: &[Seq<u8>],
    exports: &[Winner],
    live: &[u32],
    workers: Workers,
) -> Result<SymWorld, LinkError>
    ghost s: { Stage }
    requires is { IsLinking s.program program entries files.now }
    requires chosen { IsChosen s program exports.now live.now }
    requires stage { IsStage s }
    requires plain { mode_of s.program.plan ≡ modes.Plain }
    ensures { Told result (sym_laid_out s.program s.exports s.parts) }
{
    let placed = place_segments(alloc, program, files, live)?;
    let numbering = number(rt, alloc, program, entries, exports, live, workers)?;
    let layout = Layout {
        program,
        numbering: &numbering,
        placed: &placed,
    };
    let world = objects(alloc, layout, entries, files, exports, live)?;
    Ok(world)
}
