//! The first local symbol of a part that isn't kept to which a kept part refers.
ghost use Rattle.std.specs.Prelude.{◌≡◌, [], Some, false, option_map, slice_get, slice_index_or, IfOk};
ghost use Rattle.std.specs.List.{list_any};
ghost use Rattle.link_program.specs.name_entries.View.{rows_of, entry_at};
ghost use Rattle.link_program.specs.name_entries.Fits.{FitsObjects};
ghost use Rattle.link_program.specs.link_rules.Program.{Program as Rules};
ghost use Rattle.link_program.specs.declared.program.Program.{Program as Data};
ghost use Rattle.link_program.specs.made_symbols.declared.mode.Mode.TheVariants.{Plain};
ghost use Rattle.link_program.specs.Program.{IsProgramOf};
ghost use Rattle.partial_rules.specs.Partial.{open_local};
ghost use Rattle.partial_open.specs.Lost.{is_lost, is_lost_one, fault_of, first_flagged, object_fault, first_fault};

use crate::flags::flags_of;
use link_program::{Entries, Object, ObjectParts};
use std::alloc::Global;
use wl_base::{Fault, OutOfMemory, Seq};

/// Whether the symbol at a place is a local definition in a part that isn't kept.
fn is_lost(entries: Entries<'_>, object: u32, place: u32) -> bool
    requires { FitsObjects entries }
    ensures { result ≡ is_lost_one (entry_at entries.entry.objects.now object place) }
{
    let Some(entry) = entries.entry(object, place) else {
        return false;
    };
    entry.symbol.is_local_definition() && !entry.defines
}

/// Whether an object has such a symbol.
#[tactic(auto, using(crate::proofs::Loops::loses_on, crate::proofs::Loops::loses_found, crate::proofs::Loops::loses_none))]
fn loses(entries: Entries<'_>, object: u32) -> bool
    requires { FitsObjects entries }
    ensures { result ≡ list_any is_lost (slice_index_or (rows_of entries.entry.objects.now) object []) }
{
    for place in 0..entries.symbols(object) {
        if is_lost(entries, object, place) {
            return true;
        }
    }
    false
}

/// The fault of the symbol at a place.
fn fault_at(
    alloc: Global,
    entries: Entries<'_>,
    object: u32,
    place: u32,
) -> Result<Option<Fault>, OutOfMemory>
    requires { FitsObjects entries }
    ensures { IfOk result (λ f. f ≡ option_map fault_of (entry_at entries.entry.objects.now object place)) }
{
    let Some(entry) = entries.entry(object, place) else {
        return Ok(None);
    };
    let name = match entry.symbol.name {
        Some(name) => Seq::from_slice(alloc, name)?,
        None => Seq::new(alloc),
    };
    Ok(Some(Fault::Unresolved {
        name,
        input: entry.input,
    }))
}

/// Whether the symbol at a place has a flag.
fn has_flag(flags: &[bool], place: u32) -> bool
    ensures { result ≡ slice_index_or flags.now place false }
{
    match flags.get(place as usize) {
        Some(flag) => *flag,
        None => false,
    }
}

/// The fault of the first lost symbol of an object that has a flag.
#[tactic(auto, using(crate::proofs::Loops::flagged_on, crate::proofs::Loops::flagged_found, crate::proofs::Loops::flagged_none))]
fn first_flagged(
    alloc: Global,
    entries: Entries<'_>,
    object: u32,
    flags: &[bool],
) -> Result<Option<Fault>, OutOfMemory>
    requires { FitsObjects entries }
    ensures { IfOk result (λ f. f ≡ option_map fault_of (first_flagged flags.now 0 (slice_index_or (rows_of entries.entry.objects.now) object []))) }
{
    for place in 0..entries.symbols(object) {
        if is_lost(entries, object, place) && has_flag(flags, place) {
            return fault_at(alloc, entries, object, place);
        }
    }
    Ok(None)
}

/// The fault of an object.
fn object_fault(
    alloc: Global,
    entries: Entries<'_>,
    object: u32,
    from: &Object,
    parts: &ObjectParts,
) -> Result<Option<Fault>, OutOfMemory>
    requires fits { FitsObjects entries }
    requires place { slice_get entries.objects.now object ≡ Some from.now }
    ensures { IfOk result (λ f. f ≡ object_fault entries.entry.objects.now from.now parts.now) }
{
    if !loses(entries, object) {
        return Ok(None);
    }
    let flags = flags_of(alloc, from, parts)?;
    let fault = first_flagged(alloc, entries, object, flags.as_slice())?;
    Ok(fault)
}

/// The fault of the first object that has one.
#[tactic(auto, using(crate::proofs::Loops::fault_on, crate::proofs::Loops::fault_found, crate::proofs::Loops::fault_none, crate::proofs::Loops::fault_no_parts))]
fn first_fault(alloc: Global, entries: Entries<'_>) -> Result<Option<Fault>, OutOfMemory>
    requires { FitsObjects entries }
    ensures { IfOk result (λ f. f ≡ first_fault entries.entry.objects.now entries.entry.objects.now entries.entry.parts.now) }
{
    for object in 0..entries.count() {
        let at = object as usize;
        let Some(from) = entries.objects.get(at) else {
            return Ok(None);
        };
        let Some(parts) = entries.parts.get(at) else {
            return Ok(None);
        };
        if let Some(fault) = object_fault(alloc, entries, object, from, parts)? {
            return Ok(Some(fault));
        }
    }
    Ok(None)
}

/// `Unresolved` with the least symbol, by input and place, that is a local definition in a part that isn't kept and that a kept part
/// refers to; `None` exactly where there is none. `entries` is the view of a program's objects.
pub fn open_local(alloc: Global, entries: Entries<'_>) -> Result<Option<Fault>, OutOfMemory>
    requires { FitsObjects entries }
    ensures { IfOk result (λ f. (d : Data) (p : Rules) → IsProgramOf Plain d p → p.plan.loose_calls ≡ false → entries.entry.objects.now ≡ d.objects.now → f ≡ open_local p) }
{
    let fault = first_fault(alloc, entries)?;
    Ok(fault)
}
