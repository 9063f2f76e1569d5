//! The link of a module, as a list of steps in the order of its definition (`link_of` in link_rules/specs/LinkOf.antt): load, find, exports,
//! mark, fixed code, unresolved, place, number, image, measure, patches, write. Each gives what the next ones need, or a fault that ends the link. Behind
//! them stand the check of the output and, where the plan asks for them, the sections behind it (`linked` in specs/Linked.antt). These are
//! made before the output is written, while what was found of the program is still there.
ghost use Rattle.std.specs.Prelude.{◌≡◌, ◌<◌, ◌^◌, true, [], length, unwrap_or, IfOk, IsTrue};
ghost use Rattle.link_output.specs.link_program.link_plan.Plan.{IsPlan};
ghost use Rattle.link_output.specs.link_program.link_rules.ModeOf.{mode_of, IsPlain};
ghost use Rattle.link_output.specs.link_program.link_rules.Program as rules;
ghost use Rattle.link_output.specs.link_program.link_rules.LinkOf.{link_of, link_program, laid_out, written};
ghost use Rattle.link_output.specs.link_program.Answers.{Passes};
ghost use Rattle.link_image.specs.link_layout.Layout.{IsLayout};
ghost use Rattle.link_output.specs.link_program.Loaded.{IsLoaded};
ghost use Rattle.link_output.specs.link_program.Program.{IsProgram};
ghost use Rattle.link_output.specs.link_program.name_entries.Fits.{Fits};
ghost use Rattle.link_output.specs.link_program.Stand.{PartsStand};
ghost use Rattle.debug_places.specs.Tails.{LoadedStage};
ghost use Rattle.link_tails.specs.Tails.{whole_tail, program_whole};
ghost use Rattle.link_core.specs.Answers.{Answers, IsShort};
ghost use Rattle.link_core.specs.Checked.{KeepsValid};
ghost use Rattle.link_core.specs.Chosen.{IsChosen, Chooses};
ghost use Rattle.link_core.specs.Linked.{linked};
ghost use Rattle.link_core.specs.Linking.{IsLinking};
ghost use Rattle.link_core.specs.Loading.{Loading, program_in};
ghost use Rattle.link_core.specs.Making.{the_image, the_windows};
ghost use Rattle.link_core.specs.Places.{SaysPlaces};
ghost use Rattle.link_core.specs.Prepared.{outputs, IsReady};
ghost use Rattle.link_core.specs.Tails.{modules, stage_tail, TellsTail};
ghost use Rattle.link_core.specs.Telling.{Tells};
ghost use Rattle.mismatch_rules.specs.Mismatches.{standing};
ghost use Rattle.called_variants.specs.Called.{calls_told_of, told_of};
ghost use Rattle.valid_shared_links.specs.valid_links.link_runs.Links.{Runs};
ghost use Rattle.valid_shared_links.specs.valid_links.output_check.Check.{invalid_fault, IsValidOutput};
ghost use Rattle.valid_shared_links.specs.Links.{AllValid};

use crate::chosen::Chosen;
use crate::prepared::Prepared;
use crate::tail::{Whole, kept, room_for, with_tail};
use crate::telling::find_telling;
use link_image::{Layout, image, number, place_segments};
use link_output::laws::{
    patches_make_the_output, values_are_judged_in_turn, windows_stand_in_sources,
};
use link_output::{Entries, Home, LinkError, Program, Winner, measured, write};
use link_plan::Plan;
use link_tails::{
    Inputs, ValidError, check_output, links_dont_judge, links_run, load_inputs, offsets_stay,
    runs_stay, valid_stays,
};
use lost_ctors::{
    all_are_meant, exports, first_fixed, live_parts, repeated_export, uncalled, unresolved,
};
use mismatch_rules::Mismatch;
use program_build::Found;
use program_build::laws::parts_stand;
use std::alloc::Global;
use std::mem::forget;
use std::thread::Threads;
use tails_out::tail_behind;
use valid_shared_links::all_links_are_valid;
use wl_base::{Fault, Seq};
use wl_fan::Workers;
use wl_outside::Gate;

/// How many bytes to read are worth threads.
const LEAST_WORK: usize = 6 << 20;

/// How many bytes of a file take as long to read as what each file takes by itself.
const FILE_WORK: usize = 4 << 10;

/// Links the files into a module, and tells of functions that are called by another type than their definition has, in a list that begins
/// empty: but for want of memory all that is to be told, whether the link is refused or not.
pub(crate) fn module_telling<R: Threads + Sync, G: Gate>(
    rt: &R,
    alloc: Global,
    plan: &Plan,
    files: &[Seq<u8>],
    gate: &G,
    told: &mut Seq<Mismatch>,
) -> Result<Seq<u8>, LinkError>
    requires plan { IsPlan plan.now }
    requires files { length files.now ≡ unwrap_or plan.now.make_case (length plan.now.inputs) }
    ensures exact { Answers result (linked plan.now files.now) }
    ensures runs { IsPlain plan.now → IfOk result (λ bytes. Runs plan.now files.now bytes) }
    ensures valid { AllValid plan.now files.now → KeepsValid plan.now files.now result }
    ensures checked { IsTrue plan.now.validate → IfOk result IsValidOutput }
    ensures places { IsPlain plan.now → plan.now.keep_debug ≡ true → IfOk result (SaysPlaces plan.now files.now) }
    ensures short { IsShort result }
    ensures told { told.old ≡ [] → Tells result told.new (calls_told_of plan.now files.now) }
{
    links_run();
    all_links_are_valid();
    links_dont_judge();
    runs_stay();
    valid_stays();
    offsets_stay();
    let answer = link_checked(rt, alloc, plan, files, gate, told);
    answer
}

// The same, where no word is said of runs and of valid objects.
fn link_checked<R: Threads + Sync, G: Gate>(
    rt: &R,
    alloc: Global,
    plan: &Plan,
    files: &[Seq<u8>],
    gate: &G,
    told: &mut Seq<Mismatch>,
) -> Result<Seq<u8>, LinkError>
    requires plan { IsPlan plan.now }
    requires files { length files.now ≡ unwrap_or plan.now.make_case (length plan.now.inputs) }
    ensures exact { Answers result (linked plan.now files.now) }
    ensures checked { IsTrue plan.now.validate → IfOk result IsValidOutput }
    ensures short { IsShort result }
    ensures told { told.old ≡ [] → Tells result told.new (calls_told_of plan.now files.now) }
{
    valid_stays();
    let whole = link_files(rt, alloc, plan, files, gate, told)?;
    check(
        rt,
        alloc,
        plan,
        whole.bytes.as_slice(),
        workers_of(plan, files, gate),
    )?;
    let answer = with_tail(whole);
    answer
}

// Checks the output, where the plan asks for that.
fn check<R: Threads + Sync>(
    rt: &R,
    alloc: Global,
    plan: &Plan,
    bytes: &[u8],
    workers: Workers,
) -> Result<(), LinkError>
    ensures exact { Passes result (invalid_fault plan.now bytes.now) }
    ensures valid { IfOk result (λ passed. IsTrue plan.now.validate → IsValidOutput bytes.now) }
{
    match check_output(rt, alloc, plan, bytes, workers) {
        Ok(()) => Ok(()),
        Err(ValidError::Invalid(at)) => Err(LinkError::Refused(Fault::Invalid { at })),
        Err(ValidError::OutOfMemory) => Err(LinkError::OutOfMemory),
    }
}

// The link without the check, and what is to stand behind it.
fn link_files<R: Threads + Sync, G: Gate>(
    rt: &R,
    alloc: Global,
    plan: &Plan,
    files: &[Seq<u8>],
    gate: &G,
    told: &mut Seq<Mismatch>,
) -> Result<Whole, LinkError>
    requires plan { IsPlan plan.now }
    requires files { length files.now ≡ unwrap_or plan.now.make_case (length plan.now.inputs) }
    ensures exact { Answers (modules result) (link_of plan.now files.now) }
    ensures tail { IfOk result (λ w. TellsTail w.tail (whole_tail plan.now files.now (length w.bytes))) }
    ensures short { IfOk result (λ w. length w.bytes < 2 ^ 31) }
    ensures told { told.old ≡ [] → Tells result told.new (calls_told_of plan.now files.now) }
{
    let workers = workers_of(plan, files, gate);
    let inputs = load_inputs(rt, alloc, plan, files, workers, gate)?;
    let prepared = prepare(rt, alloc, plan, files, &inputs, workers, gate, told);
    forget(inputs);
    let ready = prepared?;
    let bytes = write(
        rt,
        alloc,
        files,
        &ready.image,
        &ready.measured,
        &ready.patches,
        room_for(&ready.tail),
        workers,
        gate,
    )?;
    let Prepared { tail, .. } = ready;
    Ok(Whole { bytes, tail })
}

// Prepares the output of the loaded objects. What was found of them is given back at the end, before the output's buffer is reserved; but not
// the names, each of which is a small piece.
fn prepare<R: Threads + Sync, G: Gate>(
    rt: &R,
    alloc: Global,
    plan: &Plan,
    files: &[Seq<u8>],
    inputs: &Inputs,
    workers: Workers,
    gate: &G,
    told: &mut Seq<Mismatch>,
) -> Result<Prepared, LinkError>
    ghost l: { Loading }
    requires plan { IsPlan plan.now }
    requires same { l.origin.plan ≡ plan.now }
    requires files { l.origin.files ≡ files.now }
    requires objects { l.objects ≡ inputs.now.loaded }
    requires loaded { IsLoaded l.origin.files l.origin.all inputs.now.loaded inputs.now.homes }
    ensures exact { Answers (outputs files.now result) (link_program (mode_of (program_in l).plan) (program_in l)) }
    ensures ready { IfOk result (IsReady files.now) }
    ensures tail { IfOk result (λ p. TellsTail p.tail (program_whole (mode_of (program_in l).plan) (program_in l) l.origin.all p.measured.len)) }
    ensures told { told.old ≡ [] → Tells result told.new (told_of (standing (program_in l))) }
{
    let objects = inputs.objects();
    let homes = inputs.homes();
    let found = find_telling(rt, alloc, plan, objects, homes, workers, gate, told)?;
    parts_stand();
    let program = found.program(plan, objects);
    let entries = found.view(objects);
    let chosen = choose(rt, alloc, program, entries, workers, gate)?;
    let exports = chosen.exports.as_slice();
    let live = chosen.live.numbers.as_slice();
    let prepared = lay_out(
        rt, alloc, program, entries, files, homes, exports, live, workers,
    );
    let Found { names, .. } = found;
    forget(names);
    prepared
}

// Stops at a fault, where there is one.
fn refuse(fault: Option<Fault>) -> Result<(), LinkError>
    ensures { Passes result fault }
{
    match fault {
        Some(fault) => Err(LinkError::Refused(fault)),
        None => Ok(()),
    }
}

// Chooses what is exported and what is live of a program.
fn choose<R: Threads + Sync, G: Gate>(
    rt: &R,
    alloc: Global,
    program: Program<'_>,
    entries: Entries<'_>,
    workers: Workers,
    gate: &G,
) -> Result<Chosen, LinkError>
    ghost p: { rules.Program }
    requires program { IsProgram program p }
    requires fits { Fits (mode_of p.plan) entries }
    requires objects { entries.objects.now ≡ program.objects.now }
    requires stand { PartsStand p }
    ensures { Chooses result program.entry p }
{
    let exports = exports(rt, alloc, program, workers, gate)?;
    repeated_export(alloc, program, exports.as_slice())?;
    let live = live_parts(rt, alloc, program, exports.as_slice(), workers, gate)?;
    refuse(first_fixed(program, &live))?;
    unresolved(rt, alloc, program, &live, workers)?;
    uncalled(alloc, program, entries, &live)?;
    all_are_meant();
    Ok(Chosen { exports, live })
}

// Gives all that is live its place and its number, and prepares the output.
fn lay_out<R: Threads + Sync>(
    rt: &R,
    alloc: Global,
    program: Program<'_>,
    entries: Entries<'_>,
    files: &[Seq<u8>],
    homes: &[Home],
    exports: &[Winner],
    live: &[u32],
    workers: Workers,
) -> Result<Prepared, LinkError>
    ghost s: { LoadedStage }
    requires is { IsLinking s.stage.program program entries files.now }
    requires chosen { IsChosen s.stage program exports.now live.now }
    requires loaded { IsLoaded s.stage.program.files s.all s.stage.program.objects homes.now }
    ensures exact { Answers (outputs files.now result) (laid_out (mode_of s.stage.program.plan) s.stage.program s.stage.exports s.stage.parts) }
    ensures ready { IfOk result (IsReady files.now) }
    ensures tail { IfOk result (λ p. TellsTail p.tail (stage_tail s p.measured.len)) }
{
    let placed = place_segments(alloc, program, files, live)?;
    let numbering = number(rt, alloc, program, entries, exports, live, workers)?;
    let layout = Layout {
        program,
        numbering: &numbering,
        placed: &placed,
    };
    let prepared = make_ready(rt, alloc, layout, files, homes, exports, live, workers);
    prepared
}

// Makes the output's image, measures it, finds what its windows hold, and makes what stands behind it.
fn make_ready<R: Threads + Sync>(
    rt: &R,
    alloc: Global,
    layout: Layout<'_>,
    files: &[Seq<u8>],
    homes: &[Home],
    exports: &[Winner],
    live: &[u32],
    workers: Workers,
) -> Result<Prepared, LinkError>
    ghost s: { LoadedStage }
    requires layout { IsLayout s.stage.program s.stage.parts s.stage.exports layout }
    requires chosen { IsChosen s.stage layout.program exports.now live.now }
    requires files { files.now ≡ s.stage.program.files }
    requires loaded { IsLoaded s.stage.program.files s.all s.stage.program.objects homes.now }
    ensures exact { Answers (outputs files.now result) (written (mode_of s.stage.program.plan) s.stage.program (the_image s.stage) (the_windows s.stage)) }
    ensures ready { IfOk result (IsReady files.now) }
    ensures tail { IfOk result (λ p. TellsTail p.tail (stage_tail s p.measured.len)) }
{
    windows_stand_in_sources();
    values_are_judged_in_turn();
    patches_make_the_output();
    let image = image(alloc, layout, exports, live)?;
    let measured = measured(alloc, files, &image)?;
    let patches = layout.patches(rt, alloc, live, measured.places.as_slice(), workers)?;
    let joined = tail_behind(rt, alloc, layout, live, &measured, homes, files, workers);
    let tail = kept(joined)?;
    Ok(Prepared {
        image,
        measured,
        patches,
        tail,
    })
}

// How many workers a link is worth: as many as the plan has threads, but one where little is to be read and nobody waits at the gate.
pub(crate) fn workers_of<G: Gate>(plan: &Plan, files: &[Seq<u8>], gate: &G) -> Workers
    requires { IsPlan plan.now }
{
    let threads = if gate.is_open() && is_small(files) {
        1
    } else {
        plan.threads
    };
    let Some(workers) = Workers::new(threads) else {
        unreachable!()
    };
    workers
}

// Whether a link of these files is done before threads would have helped it.
fn is_small(files: &[Seq<u8>]) -> bool {
    let mut left = LEAST_WORK;
    for file in files {
        let work = file.len().saturating_add(FILE_WORK);
        if work >= left {
            return false;
        }
        left -= work;
    }
    true
}
