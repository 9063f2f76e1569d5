//! The call that makes the object of a partial link.
ghost use Rattle.std.specs.Prelude.{◌≡◌, ◌≤◌, ◌^◌, false, length, IfOk};
ghost use Rattle.partial_items.specs.link_program.made_symbols.declared.mode.Mode.TheVariants.{Plain};
ghost use Rattle.partial_items.specs.link_program.name_entries.View.{InputsRise};
ghost use Rattle.partial_items.specs.link_program.name_entries.Fits.{FitsObjects};
ghost use Rattle.partial_items.specs.link_program.link_rules.Program as rules;
ghost use Rattle.partial_items.specs.link_program.link_rules.ModeOf.{IsPlain};
ghost use Rattle.partial_items.specs.link_program.Answers.{Answers};
ghost use Rattle.partial_items.specs.link_program.Program.{IsProgram, IsProgramOf};
ghost use Rattle.partial_items.specs.link_program.Stand.{PartsStand};
ghost use Rattle.partial_items.specs.partial_rules.Relocatable.{relocatable_bytes};
ghost use Rattle.partial_items.specs.partial_rules.Partial.{relocatable};
ghost use Rattle.relink_out.specs.Judged.{IsJudged};
ghost use Rattle.relink_out.specs.Made.{made_of};

use crate::found::found_of;
use crate::held::held_of;
use crate::named::named_of;
use crate::typed::typed_of;
use crate::whole::written_of;
use crate::writing::Judged;
use partial_items::{Entries, LinkError, Program};
use partial_open::open_local;
use std::alloc::Global;
use std::thread::Threads;
use wl_base::{Fault, OutOfMemory, Seq};
use wl_fan::Workers;

/// The bytes of the object of a plain program, or how many there would be.
fn object<R: Threads + Sync>(
    rt: &R,
    alloc: Global,
    program: Program<'_>,
    entries: Entries<'_>,
    files: &[Seq<u8>],
    workers: Workers,
) -> Result<Judged, OutOfMemory>
    ghost p: { rules.Program }
    requires program { IsProgramOf Plain program p }
    requires strict { p.plan.loose_calls ≡ false }
    requires stand { PartsStand p }
    requires rise { InputsRise 0 program.objects.now }
    requires fits { FitsObjects entries }
    requires objects { entries.objects.now ≡ program.objects.now }
    requires names { entries.names.now ≡ program.names.now }
    requires files { files.now ≡ p.files }
    ensures { IfOk result (IsJudged (relocatable_bytes (relocatable p))) }
{
    let found = found_of(alloc, program, entries)?;
    let typed = typed_of(alloc, program, entries, &found)?;
    let named = named_of(alloc, program, entries, &found)?;
    let held = held_of(alloc, program, entries, &found)?;
    let judged = written_of(
        rt, alloc, program, entries, files, &found, &typed, &named, &held, workers,
    )?;
    Ok(judged)
}

/// The object that a partial link makes of a program: all that is kept of the loaded objects, as one relocatable object of at most 2^30 bytes.
///
/// The program is that of a plan that asks for a plain output without loose calls, as that of a partial link does. Its names are in order (`find` of
/// program_build refuses others). `entries` is the view of its objects, and these are its files. It is refused by a reference of a kept part to a local
/// symbol of one that isn't kept, or by its length.
#[tactic(auto, using(crate::proofs::Ends::is_refused, crate::proofs::Ends::is_bytes, crate::proofs::Ends::is_long))]
pub fn partial<R: Threads + Sync>(
    rt: &R,
    alloc: Global,
    program: Program<'_>,
    entries: Entries<'_>,
    files: &[Seq<u8>],
    workers: Workers,
) -> Result<Seq<u8>, LinkError>
    ghost p: { rules.Program }
    requires program { IsProgram program p }
    requires plain { IsPlain p.plan }
    requires strict { p.plan.loose_calls ≡ false }
    requires stand { PartsStand p }
    requires fits { FitsObjects entries }
    requires objects { entries.objects.now ≡ program.objects.now }
    requires names { entries.names.now ≡ program.names.now }
    requires files { files.now ≡ p.files }
    ensures exact { Answers (λ bytes. bytes) result (made_of p) }
    ensures short { IfOk result (λ bytes. length bytes ≤ 2 ^ 30) }
{
    let Ok(fault) = open_local(alloc, entries) else {
        return Err(LinkError::OutOfMemory);
    };
    if let Some(fault) = fault {
        return Err(LinkError::Refused(fault));
    }
    let Ok(judged) = object(rt, alloc, program, entries, files, workers) else {
        return Err(LinkError::OutOfMemory);
    };
    match judged {
        Judged::Bytes(bytes) => Ok(bytes),
        Judged::TooLong(needed) => Err(LinkError::Refused(Fault::PartialTooLong { needed })),
    }
}
