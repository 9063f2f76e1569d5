//! The whole link: a module, or where the plan asks for a partial link one relocatable object (`whole_link` in specs/Whole.antt).
ghost use Rattle.std.specs.Prelude.{◌≡◌, true, [], length, unwrap_or, IfOk, IsTrue};
ghost use Rattle.link_output.specs.link_program.link_plan.Plan.{IsPlan};
ghost use Rattle.link_output.specs.link_program.link_rules.ModeOf.{IsPlain};
ghost use Rattle.link_core.specs.Answers.{Answers, IsShort};
ghost use Rattle.link_core.specs.Checked.{KeepsValid};
ghost use Rattle.link_core.specs.Places.{SaysPlaces};
ghost use Rattle.link_core.specs.Telling.{Tells};
ghost use Rattle.link_core.specs.Whole.{whole_link, told_calls, MakesModule};
ghost use Rattle.valid_shared_links.specs.valid_links.link_runs.Links.{Runs};
ghost use Rattle.valid_shared_links.specs.valid_links.output_check.Check.{IsValidOutput};
ghost use Rattle.valid_shared_links.specs.Links.{AllValid};

use crate::driver::{module_telling, workers_of};
use crate::joining::join;
use link_output::LinkError;
use link_plan::Plan;
use mismatch_rules::Mismatch;
use std::alloc::Global;
use std::thread::Threads;
use wl_base::Seq;
use wl_outside::Gate;

/// Links the files as the plan asks: the bytes of the module, and behind it the joined debug sections of the objects, the names of the functions
/// and the features that the objects use, each where the plan asks for it; or for a partial link the bytes of one relocatable object; or the
/// first fault that applies. There is one file for each input of the plan, or as many as objects were generated.
///
/// Given objects are read, groups and names are raced for, live parts are marked and the output is filled by as many workers as the plan
/// has threads, or by one where the gate is open and little is to be linked; each passes the gate before a job. The values of windows are
/// found by the same workers, who pass no gate for that, and so are the bytes of a relocatable object. The answer doesn't depend on them. From
/// the moment that the output's buffer is reserved nothing can want memory; but where the plan asks for the check of the output, from the end
/// of the check on.
///
/// What was read of the files, and the names, aren't given back, but kept until the process ends: that would be a free for each small piece,
/// which takes up to a tenth of a link of many objects.
pub fn link<R: Threads + Sync, G: Gate>(
    rt: &R,
    alloc: Global,
    plan: &Plan,
    files: &[Seq<u8>],
    gate: &G,
) -> Result<Seq<u8>, LinkError>
    requires plan { IsPlan plan.now }
    requires files { length files.now ≡ unwrap_or plan.now.make_case (length plan.now.inputs) }
    // The answer is the definition's, or want of memory.
    ensures exact { Answers result (whole_link plan.now files.now) }
    // A plain module runs as the plan and the files tell, with nothing linked. What a shared one does hangs on its loader.
    ensures runs { MakesModule plan.now → IsPlain plan.now → IfOk result (λ bytes. Runs plan.now files.now bytes) }
    // Where all objects that are loaded are valid, so is the module, a plain one or a shared one, and the check refuses nothing, whether the plan
    // asks for it or not.
    ensures valid { MakesModule plan.now → AllValid plan.now files.now → KeepsValid plan.now files.now result }
    // Where the plan asks for the check, the module is valid whatever the objects are.
    ensures checked { MakesModule plan.now → IsTrue plan.now.validate → IfOk result IsValidOutput }
    // Where the plan keeps debug sections of a plain module, each place in a live function that they name is that of the same instruction in
    // the module, and the dead word stands for each that isn't live.
    ensures places { MakesModule plan.now → IsPlain plan.now → plan.now.keep_debug ≡ true → IfOk result (SaysPlaces plan.now files.now) }
    // The bytes are fewer than 2^31.
    ensures short { IsShort result }
{
    let mut told = Seq::new(alloc);
    let answer = link_telling(rt, alloc, plan, files, gate, &mut told);
    answer
}

/// The same, and what is told of functions that are called by another type than their definition has, in a list that begins empty: but for
/// want of memory all that is to be told, whether the link is refused or not.
pub fn link_telling<R: Threads + Sync, G: Gate>(
    rt: &R,
    alloc: Global,
    plan: &Plan,
    files: &[Seq<u8>],
    gate: &G,
    told: &mut Seq<Mismatch>,
) -> Result<Seq<u8>, LinkError>
    requires plan { IsPlan plan.now }
    requires files { length files.now ≡ unwrap_or plan.now.make_case (length plan.now.inputs) }
    ensures exact { Answers result (whole_link plan.now files.now) }
    ensures runs { MakesModule plan.now → IsPlain plan.now → IfOk result (λ bytes. Runs plan.now files.now bytes) }
    ensures valid { MakesModule plan.now → AllValid plan.now files.now → KeepsValid plan.now files.now result }
    ensures checked { MakesModule plan.now → IsTrue plan.now.validate → IfOk result IsValidOutput }
    ensures places { MakesModule plan.now → IsPlain plan.now → plan.now.keep_debug ≡ true → IfOk result (SaysPlaces plan.now files.now) }
    ensures short { IsShort result }
    ensures told { told.old ≡ [] → Tells result told.new (told_calls plan.now files.now) }
{
    if plan.partial {
        let joined = join(rt, alloc, plan, files, workers_of(plan, files, gate), gate);
        return joined;
    }
    let answer = module_telling(rt, alloc, plan, files, gate, told);
    answer
}
