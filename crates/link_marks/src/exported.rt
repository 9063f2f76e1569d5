//! What is exported, and by which names.
ghost use Rattle.std.specs.Prelude.{◌≡◌, ◌<◌, filter, map, length, option_copied, Contains, IfOk};
ghost use Rattle.link_program.specs.made_symbols.declared.mode.Mode.TheVariants as modes;
ghost use Rattle.link_program.specs.link_rules.ModeOf.{mode_of};
ghost use Rattle.link_program.specs.link_rules.Program as rules;
ghost use Rattle.link_program.specs.link_rules.Marks as marks;
ghost use Rattle.link_program.specs.name_rules.Entries.{InputSymbol};
ghost use Rattle.link_program.specs.name_entries.View.{InputsRise};
ghost use Rattle.link_program.specs.Told.{told_winner};
ghost use Rattle.link_program.specs.Program.{IsProgram, IsProgramOfSome};
ghost use Rattle.link_marks.specs.About.{Exporting};
ghost use Rattle.link_marks.specs.Seen.{is_export};
ghost use Rattle.link_marks.specs.Names.{own_name, name_seen, IsWinner};

use crate::asked::asked_names;
use crate::due::due;
use crate::live::live_parts;
use crate::objects::object_of;
use crate::work::{any_work, has_calls};
use link_program::{Definition, Mode, Names, Object, Program, Winner, mode_of};
use linking_section::{EXPORTED, HIDDEN, SymbolKind};
use std::alloc::Global;
use std::thread::Threads;
use wl_base::{OutOfMemory, Seq};
use wl_fan::Workers;
use wl_outside::Gate;

/// Whether the words and flags ask that a winner is exported.
pub(crate) fn is_export(asked: &[bool], dynamic: bool, winner: &Winner) -> bool
    ensures { result ≡ is_export asked.now dynamic winner.now }
{
    let is_asked = match asked.get(winner.name as usize) {
        Some(flag) => *flag,
        None => false,
    };
    is_asked
        || winner.definition.input != 0
            && (winner.flags & EXPORTED != 0 || dynamic && winner.flags & HIDDEN == 0)
}

/// Those of the winners that are exported.
pub(crate) fn chosen(
    alloc: Global,
    asked: &[bool],
    dynamic: bool,
    winners: &[Winner],
) -> Result<Seq<Winner>, OutOfMemory>
    ensures { IfOk result (λ es. es ≡ filter (is_export asked.now dynamic) winners.now) }
{
    let mut exports = Seq::new(alloc);
    for winner in winners {
        if is_export(asked, dynamic, winner) {
            exports.push(*winner)?;
        }
    }
    Ok(exports)
}

/// The exported winners of a plain output.
fn plain_exports(alloc: Global, program: Program<'_>) -> Result<Seq<Winner>, OutOfMemory>
    ghost p: { rules.Program }
    requires { IsProgram program p }
    ensures { IfOk result (λ es. es ≡ map (told_winner program.entry.names.now.names) (marks.exported modes.Plain p)) }
{
    let asked = asked_names(alloc, program.names, program.plan)?;
    let winners = program.tables.winners.as_slice();
    let exports = chosen(alloc, &asked, program.plan.export_dynamic, winners)?;
    Ok(exports)
}

/// The winners that a shared output exports, by whether the function that makes addresses right has work.
fn due_exports(alloc: Global, program: Program<'_>, work: bool) -> Result<Seq<Winner>, OutOfMemory>
    ghost p: { rules.Program }
    requires { IsProgram program p }
    ensures { IfOk result (λ es. es ≡ map (told_winner program.entry.names.now.names) (marks.exports_with p (marks.has_calls p) work)) }
{
    let asked = asked_names(alloc, program.names, program.plan)?;
    let dynamic = program.plan.export_dynamic;
    let calls = has_calls(program.tables);
    let winners = program.tables.winners.as_slice();
    let exports = due(alloc, &asked, dynamic, calls, work, winners)?;
    Ok(exports)
}

/// Whether the function that makes addresses right has work, where these are exported.
fn has_work<R: Threads + Sync, G: Gate>(
    rt: &R,
    alloc: Global,
    program: Program<'_>,
    exports: &[Winner],
    workers: Workers,
    gate: &G,
) -> Result<bool, OutOfMemory>
    ghost w: { Exporting }
    requires program { IsProgram program w.program }
    requires exports { exports.now ≡ map (told_winner program.names.now.names) w.exports }
    ensures { IfOk result (λ work. work ≡ marks.has_work w.program w.exports) }
{
    let live = live_parts(rt, alloc, program, exports, workers, gate)?;
    let work = any_work(program.tables, live.numbers.as_slice());
    Ok(work)
}

/// The exported winners of a shared output. What lives without the function that makes addresses right tells whether it has work.
fn shared_exports<R: Threads + Sync, G: Gate>(
    rt: &R,
    alloc: Global,
    program: Program<'_>,
    workers: Workers,
    gate: &G,
) -> Result<Seq<Winner>, OutOfMemory>
    ghost p: { rules.Program }
    requires { IsProgram program p }
    ensures { IfOk result (λ es. es ≡ map (told_winner program.entry.names.now.names) (marks.exported modes.Shared p)) }
{
    let without = due_exports(alloc, program, false)?;
    let work = has_work(rt, alloc, program, without.as_slice(), workers, gate)?;
    let exports = due_exports(alloc, program, work)?;
    Ok(exports)
}

/// The exported winners, by input and place: those that the words name, those of objects' symbols with EXPORTED, and with
/// `--export-dynamic` those of objects' symbols that aren't HIDDEN (Linking.md, "Symbol Table Subsection"). A shared output exports
/// `__wasm_call_ctors` besides, where there are init functions, and `__wasm_apply_data_relocs`, where live data have windows or live code
/// takes an address of the link from a cell (DynamicLinking.md); what lives for that is marked by workers as [`live_parts`] does.
pub fn exports<R: Threads + Sync, G: Gate>(
    rt: &R,
    alloc: Global,
    program: Program<'_>,
    workers: Workers,
    gate: &G,
) -> Result<Seq<Winner>, OutOfMemory>
    ghost p: { rules.Program }
    requires { IsProgram program p }
    ensures { IfOk result (λ es. es ≡ map (told_winner program.entry.names.now.names) (marks.exported (mode_of p.plan) p)) }
{
    match mode_of(program.plan) {
        Mode::Plain => plain_exports(alloc, program),
        Mode::Shared => shared_exports(rt, alloc, program, workers, gate),
    }
}

/// The name under which the object exports the function of a definition.
fn own_name(objects: &[Object], definition: Definition) -> Option<&[u8]>
    requires { InputsRise 0 objects.now }
    ensures { option_copied result ≡ own_name objects.now definition }
{
    if definition.kind != SymbolKind::Function {
        return None;
    }
    let Some(object) = object_of(objects, definition.input) else {
        return None;
    };
    let Some(function) = object.functions.get(definition.index as usize) else {
        return None;
    };
    function.export_name
}

/// The name under which a winner is exported.
pub(crate) fn name_seen<'a>(objects: &'a [Object], names: &'a Names, winner: &Winner) -> &'a [u8]
    requires inputs { InputsRise 0 objects.now }
    requires name { winner.now.name < length names.now.names }
    ensures { result.now ≡ name_seen objects.now names.now.names winner.now }
{
    match own_name(objects, winner.definition) {
        Some(name) => name,
        None => names.name(winner.name),
    }
}

/// The name under which a winner is exported: that of its symbol, but a function that its own object exports has the name that it has
/// there.
pub fn export_name<'a>(program: Program<'a>, winner: &Winner) -> &'a [u8]
    ghost p: { rules.Program }
    requires program { IsProgramOfSome program p }
    requires winner { IsWinner program.names.now.names p.winners winner.now }
    ensures { (e : InputSymbol) → Contains p.winners e → winner.now ≡ told_winner program.entry.names.now.names e → result.now ≡ marks.export_name p e }
{
    name_seen(program.objects, program.names, winner)
}
