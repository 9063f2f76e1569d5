//! Entries of one name that can't stand together.
ghost use Rattle.std.specs.Prelude.{◌≡◌, ◌<◌, length, option_map, IfOk};
ghost use Rattle.loose_calls.specs.link_program.name_rules.Entries.{entries};
ghost use Rattle.loose_calls.specs.link_program.name_rules.Cases.{clash_by};
ghost use Rattle.loose_calls.specs.link_program.name_entries.Fits.{Fits};
ghost use Rattle.loose_calls.specs.name_cases.Told.{clash_told, duplicate_told, IsNamed};
ghost use Rattle.loose_calls.specs.link_program.Answers.{Passes};
ghost use Rattle.program_build.specs.Steps.{case_of};

use loose_calls::{
    Entries, LinkError, Names, PairCase, first_clash, first_duplicate, first_loose_clash,
};
use made_symbols::Mode;
use std::alloc::Global;
use std::thread::Threads;
use wl_base::{Fault, OutOfMemory, Seq};
use wl_fan::Workers;

/// A clash as a fault.
fn clash_of(alloc: Global, names: &Names, case: PairCase) -> Result<Fault, OutOfMemory>
    requires { case.name < length names.now.names }
    ensures { IfOk result (λ fault. fault ≡ clash_told names.now.names case) }
{
    Ok(Fault::Clash {
        name: Seq::from_slice(alloc, names.name(case.name))?,
        first: case.first,
        other: case.other,
    })
}

/// A duplicate as a fault.
fn duplicate_of(alloc: Global, names: &Names, case: PairCase) -> Result<Fault, OutOfMemory>
    requires { case.name < length names.now.names }
    ensures { IfOk result (λ fault. fault ≡ duplicate_told names.now.names case) }
{
    Ok(Fault::Duplicate {
        name: Seq::from_slice(alloc, names.name(case.name))?,
        first: case.first,
        other: case.other,
    })
}

/// The least clash, for a link with loose calls or without.
fn clash_in<R: Threads + Sync>(
    rt: &R,
    alloc: Global,
    view: Entries<'_>,
    loose_calls: bool,
    mode: Mode,
    workers: Workers,
) -> Result<Option<PairCase>, OutOfMemory>
    requires { Fits mode view }
    ensures is { IfOk result (λ c. option_map (clash_told view.entry.names.now.names) c ≡ clash_by loose_calls (entries mode view.entry.objects.now)) }
    ensures named { IfOk result (λ c. IsNamed view.entry.names.now.names c) }
{
    if loose_calls {
        first_loose_clash(rt, alloc, view, mode, workers)
    } else {
        first_clash(rt, alloc, view, mode, workers)
    }
}

/// Refuses the least clash, and where there is none the least duplicate.
pub(crate) fn refuse_cases<R: Threads + Sync>(
    rt: &R,
    alloc: Global,
    view: Entries<'_>,
    loose_calls: bool,
    mode: Mode,
    workers: Workers,
) -> Result<(), LinkError>
    requires { Fits mode view }
    ensures { Passes result (case_of loose_calls (entries mode view.entry.objects.now)) }
{
    if let Some(case) = clash_in(rt, alloc, view, loose_calls, mode, workers)? {
        return Err(LinkError::Refused(clash_of(alloc, view.names, case)?));
    }
    if let Some(case) = first_duplicate(rt, alloc, view, mode, workers)? {
        return Err(LinkError::Refused(duplicate_of(alloc, view.names, case)?));
    }
    Ok(())
}
