//! The top call: all that the program does.
ghost use Rattle.std.specs.Prelude.{true, [], ◌≡◌, ◌⊎◌, ◌<◌, ◌^◌, List, ℕ, IsSomeAnd, IfOk, IfErr, All, Ok, Err, length};
ghost use Rattle.wl_base.specs.declared.fault.Fault.{Fault};
ghost use Rattle.wl_base.specs.declared.usage.Usage.{Usage as UsageFault};
ghost use Rattle.wl_outside.specs.Shelf.{Same, Grows, SaveFailed};
ghost use Rattle.link_plan.specs.declared.plan.Plan.{Plan as ThePlan};
ghost use Rattle.link_plan.specs.Plan.{IsPlan};
ghost use Rattle.link_words.specs.Words.{Reads, plan_of};
ghost use Rattle.link_command.specs.Command.{planned, Shows, LinkIs, IsTold, LoadsWork, SaveWorks, IsUnlessMemory, Saved, SavedRuns, Cut};
ghost use Rattle.link_command.specs.Ending.{ending_line};
ghost use Rattle.link_command.specs.Line.{status_line};
ghost use Rattle.link_command.specs.Said.{Said};
ghost use Rattle.link_command.specs.Telling.{TellsBy, Tells};

use crate::asked::{Asked, plan_for};
use crate::ending::{Ending, case_of};
use crate::inputs::{ReadError, files};
use crate::status::Status;
use link_core::{LinkError, Mismatch, link_telling};
use link_words::{Plan, WordError, read_words};
use std::alloc::Global;
use std::thread::Threads;
use wl_base::{OutOfMemory, Seq, Text};
use wl_outside::{Failed, Gate, Shelf, Sink};

/// All that the program does: reads the words, which leave out its name; loads each input whole, in the
/// order of the words, or makes the generated case; links them; saves the output where one is named; and
/// writes the line of the status. It stops at the first of the others that fails, and then writes the line.
pub fn link_command<R: Threads + Sync, F: Shelf, E: Sink, G: Gate>(
    rt: &R,
    alloc: Global,
    words: &[Text],
    shelf: &mut F,
    say: &mut E,
    gate: &G,
) -> Status
    requires { length words.now < 2 ^ 32 }
    // Each answer has its cause, and says what the shelf holds then.
    ensures usage { (u : UsageFault) → result ≡ Status.Usage u → (plan_of words.now ≡ Err u) × Same (F.shown shelf.old) (F.shown shelf.new) }
    ensures cause { IfOk (plan_of words.now) (λ plan. Shows result (F.shown shelf.old) (F.shown shelf.new) words.now plan) }
    ensures memory { result ≡ Status.NoMemory → Same (F.shown shelf.old) (F.shown shelf.new) }

    // What is linked as a plain module runs as its files would.
    ensures runs { (plan : ThePlan) → plan_of words.now ≡ Ok plan → result ≡ Status.Linked → IsTold plan.make_case (F.shown shelf.old)
        → SavedRuns (F.shown shelf.old) (F.shown shelf.new) words.now plan }

    // No count falls, and a shelf that tells what it holds goes on telling it.
    ensures counts { Grows (F.shown shelf.old) (F.shown shelf.new) }

    // Words without a plan are always answered so.
    ensures is_usage { IfErr (plan_of words.now) (λ u. IsUnlessMemory result (Status.Usage u)) }

    // A link that is refused is always answered so, where the loads work.
    ensures is_refused { (plan : ThePlan) (fault : Fault) → plan_of words.now ≡ Ok plan
        → IsTold plan.make_case (F.shown shelf.old) → LinkIs (F.shown shelf.old) words.now plan (Err fault)
        → LoadsWork (F.shown shelf.old) (F.shown shelf.new) words.now plan → IsUnlessMemory result (Status.Refused fault) }

    // A link that is given is always linked, where the loads and the save work.
    ensures is_linked { (plan : ThePlan) (bytes : List ℕ) → plan_of words.now ≡ Ok plan
        → IsTold plan.make_case (F.shown shelf.old) → LinkIs (F.shown shelf.old) words.now plan (Ok bytes)
        → LoadsWork (F.shown shelf.old) (F.shown shelf.new) words.now plan
        → SaveWorks (F.shown shelf.old) (F.shown shelf.new) plan → IsUnlessMemory result Status.Linked }

    // The sink has the line of the answer, or where its count of faults rose a prefix of it.
    ensures said { Said (status_line (plan_of words.now) result) (E.told say.old) (E.told say.new) }
{
    let mut told = Seq::new(alloc);
    let nothing = Asked::nothing();
    let ending = answer(
        rt, alloc, words, false, false, &nothing, shelf, gate, &mut told,
    );
    // A line that can't be written changes no status.
    let _ = ending.say(say);
    ending.status
}

/// The same by words that LLVM's linker was given otherwise: a link that would lose constructors is refused, and with `loose_calls` a function
/// may be called by another type than its definition has, which `told` then lists; without them such a call is a clash, as it is in our own
/// links. Names and features stand behind the module as `asked` says. It writes no line.
pub fn link_like_lld<R: Threads + Sync, F: Shelf, G: Gate>(
    rt: &R,
    alloc: Global,
    words: &[Text],
    loose_calls: bool,
    asked: &Asked,
    shelf: &mut F,
    gate: &G,
    told: &mut Seq<Mismatch>,
) -> Status
    requires { length words.now < 2 ^ 32 }
    ensures usage { (u : UsageFault) → result ≡ Status.Usage u → (planned true loose_calls asked.now words.now ≡ Err u) × Same (F.shown shelf.old) (F.shown shelf.new) }
    ensures cause { IfOk (planned true loose_calls asked.now words.now) (λ plan. Shows result (F.shown shelf.old) (F.shown shelf.new) words.now plan) }
    ensures memory { result ≡ Status.NoMemory → Same (F.shown shelf.old) (F.shown shelf.new) }
    ensures runs { (plan : ThePlan) → planned true loose_calls asked.now words.now ≡ Ok plan → result ≡ Status.Linked → IsTold plan.make_case (F.shown shelf.old)
        → SavedRuns (F.shown shelf.old) (F.shown shelf.new) words.now plan }
    ensures counts { Grows (F.shown shelf.old) (F.shown shelf.new) }
    ensures is_usage { IfErr (planned true loose_calls asked.now words.now) (λ u. IsUnlessMemory result (Status.Usage u)) }
    ensures is_refused { (plan : ThePlan) (fault : Fault) → planned true loose_calls asked.now words.now ≡ Ok plan
        → IsTold plan.make_case (F.shown shelf.old) → LinkIs (F.shown shelf.old) words.now plan (Err fault)
        → LoadsWork (F.shown shelf.old) (F.shown shelf.new) words.now plan → IsUnlessMemory result (Status.Refused fault) }
    ensures is_linked { (plan : ThePlan) (bytes : List ℕ) → planned true loose_calls asked.now words.now ≡ Ok plan
        → IsTold plan.make_case (F.shown shelf.old) → LinkIs (F.shown shelf.old) words.now plan (Ok bytes)
        → LoadsWork (F.shown shelf.old) (F.shown shelf.new) words.now plan
        → SaveWorks (F.shown shelf.old) (F.shown shelf.new) plan → IsUnlessMemory result Status.Linked }
    ensures told { told.old ≡ [] → Tells (planned true loose_calls asked.now words.now) result (F.shown shelf.old) words.now told.new }
{
    let ending = answer(
        rt,
        alloc,
        words,
        true,
        loose_calls,
        asked,
        shelf,
        gate,
        told,
    );
    ending.status
}

// How the work ends. The sink has no part in it.
#[tactic(auto, using(crate::proofs::Saves::grows_not, crate::proofs::Telling::usage_tells, crate::proofs::Telling::no_memory_tells))]
fn answer<R: Threads + Sync, F: Shelf, G: Gate>(
    rt: &R,
    alloc: Global,
    words: &[Text],
    like_lld: bool,
    loose_calls: bool,
    asked: &Asked,
    shelf: &mut F,
    gate: &G,
    told: &mut Seq<Mismatch>,
) -> Ending
    requires { length words.now < 2 ^ 32 }
    ensures usage { (u : UsageFault) → result.status ≡ Status.Usage u → (planned like_lld loose_calls asked.now words.now ≡ Err u) × Same (F.shown shelf.old) (F.shown shelf.new) }
    ensures cause { IfOk (planned like_lld loose_calls asked.now words.now) (λ plan. Shows result.status (F.shown shelf.old) (F.shown shelf.new) words.now plan) }
    ensures memory { result.status ≡ Status.NoMemory → Same (F.shown shelf.old) (F.shown shelf.new) }
    ensures runs { (plan : ThePlan) → planned like_lld loose_calls asked.now words.now ≡ Ok plan → result.status ≡ Status.Linked → IsTold plan.make_case (F.shown shelf.old)
        → SavedRuns (F.shown shelf.old) (F.shown shelf.new) words.now plan }
    ensures counts { Grows (F.shown shelf.old) (F.shown shelf.new) }
    ensures is_usage { IfErr (planned like_lld loose_calls asked.now words.now) (λ u. IsUnlessMemory result.status (Status.Usage u)) }
    ensures is_refused { (plan : ThePlan) (fault : Fault) → planned like_lld loose_calls asked.now words.now ≡ Ok plan
        → IsTold plan.make_case (F.shown shelf.old) → LinkIs (F.shown shelf.old) words.now plan (Err fault)
        → LoadsWork (F.shown shelf.old) (F.shown shelf.new) words.now plan → IsUnlessMemory result.status (Status.Refused fault) }
    ensures is_linked { (plan : ThePlan) (bytes : List ℕ) → planned like_lld loose_calls asked.now words.now ≡ Ok plan
        → IsTold plan.make_case (F.shown shelf.old) → LinkIs (F.shown shelf.old) words.now plan (Ok bytes)
        → LoadsWork (F.shown shelf.old) (F.shown shelf.new) words.now plan
        → SaveWorks (F.shown shelf.old) (F.shown shelf.new) plan → IsUnlessMemory result.status Status.Linked }
    ensures told { told.old ≡ [] → Tells (planned like_lld loose_calls asked.now words.now) result.status (F.shown shelf.old) words.now told.new }
    ensures line { ending_line result.status result.case ≡ status_line (planned like_lld loose_calls asked.now words.now) result.status }
{
    match read_plan(alloc, words, like_lld, loose_calls, asked) {
        Ok(plan) => run_plan(rt, alloc, &plan, words, shelf, gate, told),
        Err(WordError::Usage(usage)) => Ending::plain(Status::Usage(usage)),
        Err(WordError::OutOfMemory) => Ending::plain(Status::NoMemory),
    }
}

// The plan of the words, in a link that is like lld's or not.
pub(crate) fn read_plan(
    alloc: Global,
    words: &[Text],
    like_lld: bool,
    loose_calls: bool,
    asked: &Asked,
) -> Result<Plan, WordError>
    requires { length words.now < 2 ^ 32 }
    ensures plan { Reads result (planned like_lld loose_calls asked.now words.now) }
    ensures numbers { IfOk result IsPlan }
    ensures places { IfOk result (λ plan. All (λ i. i.place < length words.now) plan.inputs) }
{
    let plan = match read_words(alloc, words) {
        Ok(plan) => plan,
        Err(error) => return Err(error),
    };
    match plan_for(alloc, plan, like_lld, loose_calls, asked) {
        Ok(plan) => Ok(plan),
        Err(OutOfMemory) => Err(WordError::OutOfMemory),
    }
}

// Does what the plan asks for.
#[tactic(auto, using(crate::proofs::Saves::grows_on, crate::proofs::Telling::all_told))]
fn run_plan<R: Threads + Sync, F: Shelf, G: Gate>(
    rt: &R,
    alloc: Global,
    plan: &Plan,
    words: &[Text],
    shelf: &mut F,
    gate: &G,
    told: &mut Seq<Mismatch>,
) -> Ending
    requires places { All (λ i. i.place < length words.now) plan.now.inputs }
    requires plan { IsPlan plan.now }
    ensures counts { Grows (F.shown shelf.old) (F.shown shelf.new) }
    ensures cause { Shows result.status (F.shown shelf.old) (F.shown shelf.new) words.now plan.now }
    ensures runs { result.status ≡ Status.Linked → IsTold plan.now.make_case (F.shown shelf.old) → SavedRuns (F.shown shelf.old) (F.shown shelf.new) words.now plan.now }
    ensures is_refused { (fault : Fault) → IsTold plan.now.make_case (F.shown shelf.old) → LinkIs (F.shown shelf.old) words.now plan.now (Err fault)
        → LoadsWork (F.shown shelf.old) (F.shown shelf.new) words.now plan.now → IsUnlessMemory result.status (Status.Refused fault) }
    ensures is_linked { (bytes : List ℕ) → IsTold plan.now.make_case (F.shown shelf.old) → LinkIs (F.shown shelf.old) words.now plan.now (Ok bytes)
        → LoadsWork (F.shown shelf.old) (F.shown shelf.new) words.now plan.now
        → SaveWorks (F.shown shelf.old) (F.shown shelf.new) plan.now → IsUnlessMemory result.status Status.Linked }
    ensures told { told.old ≡ [] → TellsBy result.status (F.shown shelf.old) words.now plan.now told.new }
    ensures line { ending_line result.status result.case ≡ status_line (Ok plan.now) result.status }
{
    let files = match files(alloc, plan, words, shelf) {
        Ok(files) => files,
        Err(ReadError::Failed(place)) => return Ending::plain(Status::ReadFault(place)),
        Err(ReadError::OutOfMemory) => return Ending::plain(Status::NoMemory),
    };
    let bytes = match link_telling(rt, alloc, plan, files.as_slice(), gate, told) {
        Ok(bytes) => bytes,
        Err(LinkError::Refused(fault)) => return Ending::plain(Status::Refused(fault)),
        Err(LinkError::OutOfMemory) => return Ending::plain(Status::NoMemory),
    };
    let status = save_output(plan, &bytes, shelf);
    Ending {
        status,
        case: case_of(plan, bytes.as_slice()),
    }
}

// Saves the bytes under the output's name, where there is one.
fn save_output<F: Shelf>(plan: &Plan, bytes: &Seq<u8>, shelf: &mut F) -> Status
    ensures answer { (result ≡ Status.Linked) ⊎ (result ≡ Status.WriteFault) }
    ensures linked { result ≡ Status.Linked → Saved (F.shown shelf.old) (F.shown shelf.new) plan.now.output bytes.now }
    ensures torn { result ≡ Status.WriteFault → Cut (F.shown shelf.old) (F.shown shelf.new) plan.now.output bytes.now }
    ensures cause { result ≡ Status.WriteFault
        → IsSomeAnd plan.now.output (λ output. SaveFailed (F.shown shelf.old) (F.shown shelf.new) output) }
    ensures counts { Grows (F.shown shelf.old) (F.shown shelf.new) }
{
    let Some(output) = &plan.output else {
        return Status::Linked;
    };
    match shelf.save(output.as_str(), bytes.as_slice()) {
        Ok(()) => Status::Linked,
        Err(Failed) => Status::WriteFault,
    }
}
