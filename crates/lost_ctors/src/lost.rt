//! The fault of a link that would lose constructors.
ghost use Rattle.std.specs.Prelude.{◌≡◌, ◌||◌, ◌<◌, ◌^◌, not, length, flat_map};
ghost use Rattle.link_marks.specs.link_program.name_entries.Fits.{Fits, FitsObjects};
ghost use Rattle.link_marks.specs.link_program.name_entries.View.{rows_of};
ghost use Rattle.link_marks.specs.link_program.made_symbols.declared.mode.Mode.TheVariants as modes;
ghost use Rattle.link_marks.specs.link_program.link_rules.ModeOf.{mode_of};
ghost use Rattle.link_marks.specs.link_program.link_rules.Program as rules;
ghost use Rattle.link_marks.specs.link_program.link_rules.Marks as marks;
ghost use Rattle.link_marks.specs.link_program.Answers.{Passes};
ghost use Rattle.link_marks.specs.link_program.Program.{IsProgramOf, IsProgram};
ghost use Rattle.link_marks.specs.About.{Living};
ghost use Rattle.link_marks.specs.Alive.{IsLive};
ghost use Rattle.lost_ctors.specs.Inits.{objects_lost};
ghost use Rattle.lost_ctors.specs.Exits.{exits_lost};

use crate::alive::{Alive, alive_by_input};
use crate::exits::exits_are_lost;
use crate::inits::some_are_lost;
use crate::words::names_ctors;
use link_marks::{Entries, LinkError, Live, Mode, Names, Program, Tables, mode_of};
use std::alloc::Global;
use wl_base::Fault;

/// Whether the link isn't like lld's, or something names `__wasm_call_ctors`.
fn is_exempt(program: Program<'_>) -> bool
    ghost p: { rules.Program }
    requires { IsProgramOf modes.Plain program p }
    ensures { result ≡ (not p.plan.like_lld || marks.names_ctors p) }
{
    if !program.plan.like_lld {
        return true;
    }
    let named = names_ctors(program);
    named
}

/// Whether init functions, or what is to be done at exit, would be lost.
fn is_lost(
    names: &Names,
    tables: &Tables,
    entries: Entries<'_>,
    live: &[u32],
    alive: &[Alive],
) -> bool
    requires fits { FitsObjects entries }
    requires few { length (flat_map (λ row. row) (rows_of entries.objects.now)) < 2 ^ 32 }
    ensures { result ≡ (objects_lost tables.now entries.entry.objects.now alive.now
        || exits_lost names.now.names tables.now.winners tables.now.chunks alive.now live.now) }
{
    if some_are_lost(tables, entries, alive) {
        return true;
    }
    let lost = exits_are_lost(names, tables, alive, live);
    lost
}

/// Stops where a plain link would lose constructors.
fn plain_uncalled(
    alloc: Global,
    program: Program<'_>,
    entries: Entries<'_>,
    live: &Live,
) -> Result<(), LinkError>
    ghost w: { Living }
    requires program { IsProgramOf modes.Plain program w.program }
    requires fits { Fits modes.Plain entries }
    requires objects { entries.objects.now ≡ program.objects.now }
    requires live { IsLive w.program live.now w.parts }
    ensures { Passes result (marks.uncalled modes.Plain w.program w.parts) }
{
    if is_exempt(program) {
        return Ok(());
    }
    let numbers = live.numbers.as_slice();
    let alive = alive_by_input(alloc, program.tables, numbers)?;
    let column = alive.as_slice();
    if is_lost(program.names, program.tables, entries, numbers, column) {
        return Err(LinkError::Refused(Fault::Uncalled));
    }
    Ok(())
}

/// Stops where the link is like lld's, nothing calls `__wasm_call_ctors`, and init functions or what is to be done at exit would be lost. The
/// host of a shared output calls that function itself.
pub fn uncalled(
    alloc: Global,
    program: Program<'_>,
    entries: Entries<'_>,
    live: &Live,
) -> Result<(), LinkError>
    ghost w: { Living }
    requires program { IsProgram program w.program }
    requires fits { Fits (mode_of w.program.plan) entries }
    requires objects { entries.objects.now ≡ program.objects.now }
    requires live { IsLive w.program live.now w.parts }
    ensures { Passes result (marks.uncalled (mode_of w.program.plan) w.program w.parts) }
{
    match mode_of(program.plan) {
        Mode::Plain => plain_uncalled(alloc, program, entries, live),
        Mode::Shared => Ok(()),
    }
}
