//! What both machines say of a link: the one over the bytes that the program saves, the other over the objects.

ghost use Rattle.std.specs.Prelude.{◌≡◌, IfSome, true, length, unwrap_or};
ghost use Rattle.link_plan.specs.Plan.{IsPlan};

use link_command::{Status, link_command};
use link_plan::Plan;
use link_words::read_words;
use run_machines::{Run, run_mod, run_sym};
use run_rules::Session;
use run_script::read_script;
use run_text::trace_text;
use std::alloc::Global;
use std::thread::Threads;
use sym_world::{LinkError, sym_world};
use test_kit::{file, shelf_of, texts};
use wl_base::{Fault, OutOfMemory, Seq};
use wl_fan::Workers;
use wl_outside::{MemShelf, MemSink, OpenGate};

/// A session on a link.
#[derive(Clone, Copy)]
pub(crate) struct Case<'a> {
    pub(crate) script: &'a [u8],
    pub(crate) steps: u64,
    /// The trace as text.
    pub(crate) text: &'a [u8],
}

/// The plan of these words.
fn plan_of(alloc: Global, words: &[&str]) -> Option<Plan>
    ensures { IfSome result IsPlan }
{
    let words = match texts(alloc, words) {
        Ok(words) => words,
        Err(_) => return None,
    };
    if words.len() > 100 {
        return None;
    }
    match read_words(alloc, words.as_slice()) {
        Ok(plan) => Some(plan),
        Err(_) => None,
    }
}

/// Files of these bytes.
fn files_of(alloc: Global, objects: &[&[u8]]) -> Option<Seq<Seq<u8>>> {
    let mut files = Seq::new(alloc);
    for object in objects {
        let file = match Seq::from_slice(alloc, object) {
            Ok(file) => file,
            Err(_) => return None,
        };
        if files.push(file).is_err() {
            return None;
        }
    }
    Some(files)
}

/// Whether there is a file for each input of the plan.
fn is_whole(plan: &Plan, files: &[Seq<u8>]) -> bool
    ensures { result ≡ true → length files.now ≡ unwrap_or plan.now.make_case (length plan.now.inputs) }
{
    match plan.make_case {
        Some(_) => false,
        None => plan.inputs.len() == files.len(),
    }
}

/// Whether a run is printed so.
fn is_printed(alloc: Global, run: &Run, text: &[u8]) -> bool {
    match run {
        Run::Traced(trace) => match trace_text(alloc, trace) {
            Ok(printed) => printed.as_slice() == text,
            Err(_) => false,
        },
        Run::NoModule | Run::Outside(_) => false,
    }
}

/// A shelf of these objects, whose names are the first words.
fn shelf_for(alloc: Global, words: &[&str], objects: &[&[u8]]) -> Result<MemShelf, OutOfMemory> {
    let mut files = Seq::new(alloc);
    for (name, object) in words.iter().zip(objects) {
        files.push(file(alloc, name, object)?)?;
    }
    shelf_of(alloc, files, &[])
}

/// How the program ends on these words.
fn status_on<R: Threads + Sync>(
    rt: &R,
    alloc: Global,
    words: &[&str],
    shelf: &mut MemShelf,
) -> Result<Status, OutOfMemory> {
    let words = texts(alloc, words)?;
    if words.len() > 100 {
        return Err(OutOfMemory);
    }
    let mut say = MemSink::new(alloc, Seq::new(alloc));
    Ok(link_command(rt, alloc, words.as_slice(), shelf, &mut say, &OpenGate))
}

/// Whether the program links.
fn is_linked<R: Threads + Sync>(
    rt: &R,
    alloc: Global,
    words: &[&str],
    shelf: &mut MemShelf,
) -> bool {
    match status_on(rt, alloc, words, shelf) {
        Ok(status) => status == Status::Linked,
        Err(_) => false,
    }
}

fn is_refusal(status: &Status, fault: &Fault) -> bool {
    match status {
        Status::Refused(found) => found == fault,
        _ => false,
    }
}

/// Whether the program refuses the link for this fault.
fn is_refused<R: Threads + Sync>(
    rt: &R,
    alloc: Global,
    words: &[&str],
    shelf: &mut MemShelf,
    fault: &Fault,
) -> bool {
    match status_on(rt, alloc, words, shelf) {
        Ok(status) => is_refusal(&status, fault),
        Err(_) => false,
    }
}

/// What a session comes to on the objects.
fn run_objects<R: Threads + Sync>(
    rt: &R,
    alloc: Global,
    plan: &Plan,
    files: &[Seq<u8>],
    session: &Session,
    steps: u64,
) -> Option<Run>
    requires plan { IsPlan plan.now }
{
    if !is_whole(plan, files) {
        return None;
    }
    let workers = Workers::new(2)?;
    match sym_world(rt, alloc, plan, files, workers, &OpenGate) {
        Ok(world) => run_sym(alloc, &world, session, steps).ok(),
        Err(_) => None,
    }
}

/// Whether a run is there and printed so.
fn prints(alloc: Global, run: Option<Run>, text: &[u8]) -> bool {
    match run {
        Some(run) => is_printed(alloc, &run, text),
        None => false,
    }
}

/// Whether both machines print the trace of a case.
fn agree<R: Threads + Sync>(
    rt: &R,
    alloc: Global,
    plan: &Plan,
    files: &[Seq<u8>],
    module: &[u8],
    case: &Case<'_>,
) -> bool
    requires plan { IsPlan plan.now }
{
    match read_script(alloc, case.script) {
        Ok(script) => {
            let session = &script.session;
            let linked = run_mod(alloc, module, session, case.steps).ok();
            let objects = run_objects(rt, alloc, plan, files, session, case.steps);
            prints(alloc, linked, case.text) && prints(alloc, objects, case.text)
        }
        Err(_) => false,
    }
}

/// Whether both machines print the traces of all cases.
fn all_agree<R: Threads + Sync>(
    rt: &R,
    alloc: Global,
    plan: &Plan,
    files: &[Seq<u8>],
    module: &[u8],
    cases: &[Case<'_>],
) -> bool
    requires plan { IsPlan plan.now }
{
    for case in cases {
        if !agree(rt, alloc, plan, files, module, case) {
            return false;
        }
    }
    true
}

/// Whether this module and these objects give the traces of all cases.
fn module_holds<R: Threads + Sync>(
    rt: &R,
    alloc: Global,
    words: &[&str],
    objects: &[&[u8]],
    module: &[u8],
    cases: &[Case<'_>],
) -> bool {
    match (plan_of(alloc, words), files_of(alloc, objects)) {
        (Some(plan), Some(files)) => all_agree(rt, alloc, &plan, files.as_slice(), module, cases),
        _ => false,
    }
}

/// Whether both machines print the traces of all cases, on what the program saves by these words and on these objects.
pub(crate) fn hold<R: Threads + Sync>(
    rt: &R,
    alloc: Global,
    words: &[&str],
    objects: &[&[u8]],
    cases: &[Case<'_>],
) -> bool {
    let mut shelf = match shelf_for(alloc, words, objects) {
        Ok(shelf) => shelf,
        Err(_) => return false,
    };
    if !is_linked(rt, alloc, words, &mut shelf) {
        return false;
    }
    match shelf.held("out") {
        Some(module) => module_holds(rt, alloc, words, objects, module, cases),
        None => false,
    }
}

/// The fault of the objects.
fn fault_of_objects<R: Threads + Sync>(
    rt: &R,
    alloc: Global,
    plan: &Plan,
    files: &[Seq<u8>],
) -> Option<Fault>
    requires plan { IsPlan plan.now }
{
    if !is_whole(plan, files) {
        return None;
    }
    let workers = Workers::new(2)?;
    match sym_world(rt, alloc, plan, files, workers, &OpenGate) {
        Err(LinkError::Refused(fault)) => Some(fault),
        _ => None,
    }
}

fn is_fault(found: Option<Fault>, fault: &Fault) -> bool {
    match found {
        Some(found) => found == *fault,
        None => false,
    }
}

/// Whether the objects have this fault.
fn objects_fail<R: Threads + Sync>(
    rt: &R,
    alloc: Global,
    words: &[&str],
    objects: &[&[u8]],
    fault: &Fault,
) -> bool {
    match (plan_of(alloc, words), files_of(alloc, objects)) {
        (Some(plan), Some(files)) => {
            is_fault(fault_of_objects(rt, alloc, &plan, files.as_slice()), fault)
        }
        _ => false,
    }
}

/// Whether the program by these words and the objects have this fault.
pub(crate) fn fail<R: Threads + Sync>(
    rt: &R,
    alloc: Global,
    words: &[&str],
    objects: &[&[u8]],
    fault: &Fault,
) -> bool {
    let mut shelf = match shelf_for(alloc, words, objects) {
        Ok(shelf) => shelf,
        Err(_) => return false,
    };
    is_refused(rt, alloc, words, &mut shelf, fault)
        && objects_fail(rt, alloc, words, objects, fault)
}
