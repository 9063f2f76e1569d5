//! Which names stay unresolved.
ghost use Rattle.std.specs.Prelude.{◌≡◌, option_to_list, length, IfOk};
ghost use Rattle.link_program.specs.name_rules.Entries.{entries};
ghost use Rattle.link_program.specs.name_rules.Meanings.{resolve};
ghost use Rattle.link_program.specs.name_meanings.Means.{IsResolution};
ghost use Rattle.link_program.specs.name_entries.View.{InputsRise};
ghost use Rattle.name_unresolved.specs.Unresolved.{first_unresolved_of};
ghost use Rattle.link_program.specs.link_rules.ModeOf.{mode_of};
ghost use Rattle.link_program.specs.link_rules.Marks as marks;
ghost use Rattle.link_program.specs.Answers.{Passes};
ghost use Rattle.link_program.specs.Program.{IsProgram};
ghost use Rattle.link_marks.specs.About.{Living};
ghost use Rattle.link_marks.specs.Alive.{IsLive};
ghost use Rattle.link_marks.specs.Open.{missing_seen, first_missing, symbol_name_at, open_fault};

use crate::live::Live;
use crate::objects::object_of;
use link_plan::Plan;
use link_program::{LinkError, Names, Object, Program, refuse};
use name_unresolved::first_unresolved;
use name_unresolved::laws::resolved_is_meant;
use std::alloc::Global;
use std::thread::Threads;
use symbol_race::Winners;
use wl_base::{Fault, InputId, Name, OutOfMemory, Seq};
use wl_fan::Workers;

/// A name that has no winner.
fn missing(
    alloc: Global,
    names: &Names,
    ranks: &Winners,
    name: &[u8],
) -> Result<Option<Fault>, OutOfMemory>
    ensures { IfOk result (λ f. f ≡ missing_seen names.now.names ranks.now name.now) }
{
    let rank = match names.find(name) {
        Some(number) => ranks.of(number),
        None => None,
    };
    if rank.is_some() {
        return Ok(None);
    }
    let name = Seq::from_slice(alloc, name)?;
    Ok(Some(Fault::Unresolved { name, input: 0 }))
}

/// The first of these names that has no winner.
fn first_missing(
    alloc: Global,
    names: &Names,
    ranks: &Winners,
    words: &[Name],
) -> Result<Option<Fault>, OutOfMemory>
    ensures { IfOk result (λ f. f ≡ first_missing names.now.names ranks.now words.now) }
{
    for word in words {
        if let Some(fault) = missing(alloc, names, ranks, word.as_slice())? {
            return Ok(Some(fault));
        }
    }
    Ok(None)
}

/// The entry, where it has no winner.
fn missing_entry(
    alloc: Global,
    names: &Names,
    ranks: &Winners,
    entry: &Option<Name>,
) -> Result<Option<Fault>, OutOfMemory>
    ensures { IfOk result (λ f. f ≡ first_missing names.now.names ranks.now (option_to_list entry.now)) }
{
    match entry {
        Some(name) => missing(alloc, names, ranks, name.as_slice()),
        None => Ok(None),
    }
}

/// The first name without a winner of those that must have one: the entry, then the names of `--export`.
fn missing_demanded(
    alloc: Global,
    names: &Names,
    ranks: &Winners,
    plan: &Plan,
) -> Result<Option<Fault>, OutOfMemory>
    ensures { IfOk result (λ f. f ≡ first_missing names.now.names ranks.now (marks.demanded plan.now)) }
{
    if let Some(fault) = missing_entry(alloc, names, ranks, &plan.entry)? {
        return Ok(Some(fault));
    }
    let fault = first_missing(alloc, names, ranks, plan.exports.as_slice())?;
    Ok(fault)
}

/// The name of a symbol, by its input and place.
fn symbol_name(objects: &[Object], input: InputId, place: u32) -> &[u8]
    requires { InputsRise 0 objects.now }
    ensures { result.now ≡ symbol_name_at objects.now input place }
{
    let Some(object) = object_of(objects, input) else {
        return &[];
    };
    let Some(symbol) = object.symbols.get(place as usize) else {
        return &[];
    };
    match symbol.name {
        Some(name) => name,
        None => &[],
    }
}

/// The fault of a symbol that means nothing.
fn open_fault(
    alloc: Global,
    objects: &[Object],
    symbol: Option<(InputId, u32)>,
) -> Result<Option<Fault>, OutOfMemory>
    requires { InputsRise 0 objects.now }
    ensures { IfOk result (λ f. f ≡ open_fault objects.now symbol) }
{
    let Some((input, place)) = symbol else {
        return Ok(None);
    };
    let name = Seq::from_slice(alloc, symbol_name(objects, input, place))?;
    Ok(Some(Fault::Unresolved { name, input }))
}

/// The fault of the least symbol that a live part refers to and that means nothing.
fn first_open<R: Threads + Sync>(
    rt: &R,
    alloc: Global,
    program: Program<'_>,
    live: &Live,
    workers: Workers,
) -> Result<Option<Fault>, OutOfMemory>
    requires inputs { InputsRise 0 program.objects.now }
    requires meant { IsResolution (mode_of program.plan.now) (entries (mode_of program.plan.now) program.objects.now) program.resolution.now
        (resolve (mode_of program.plan.now) program.plan.now.allow_undefined (entries (mode_of program.plan.now) program.objects.now) program.objects.now) }
    requires live { live.now.set.chunks ≡ length program.tables.now.chunks }
    ensures { IfOk result (λ f. f ≡ open_fault program.entry.objects.now (first_unresolved_of program.entry.objects.now program.entry.resolution.now.rows live.now.set.words program.entry.tables.now.chunks)) }
{
    resolved_is_meant();
    let symbol = first_unresolved(
        rt,
        alloc,
        program.objects,
        program.resolution,
        &live.set,
        &program.tables.chunks,
        workers,
    )?;
    let fault = open_fault(alloc, program.objects, symbol)?;
    Ok(fault)
}

/// Stops at the first of the entry and the names of `--export` that has no winner, with input 0; then at the least symbol, by input and
/// place, that a live part refers to and that means nothing (`__wasm_call_ctors` refers to the init functions).
pub fn unresolved<R: Threads + Sync>(
    rt: &R,
    alloc: Global,
    program: Program<'_>,
    live: &Live,
    workers: Workers,
) -> Result<(), LinkError>
    ghost w: { Living }
    requires program { IsProgram program w.program }
    requires live { IsLive w.program live.now w.parts }
    ensures { Passes result (marks.unresolved w.program w.parts) }
{
    let demanded = missing_demanded(alloc, program.names, program.ranks, program.plan)?;
    refuse(demanded)?;
    let open = first_open(rt, alloc, program, live, workers)?;
    refuse(open)
}
