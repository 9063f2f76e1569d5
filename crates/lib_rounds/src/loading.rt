//! Inputs that are loaded.
ghost use Rattle.std.specs.Prelude.{◌≡◌, ◌-◌, ◌+◌, ◌<◌, ℕ, false, All, slice_get, Some, Result, Bool};
ghost use Rattle.std.specs.Ordering.{nat_cmp};
ghost use Rattle.std.specs.BTreeMap.{IsOrdered};
ghost use Rattle.std.specs.Map.{lookup};
ghost use Rattle.std.specs.Str.{bytes_eq};
ghost use Rattle.object_file.specs.wl_base.declared.fault.Fault.{Fault as Why};
ghost use Rattle.object_file.specs.wl_base.declared.fault.Fault.TheVariants as faults;
ghost use Rattle.object_file.specs.declared.object.Object.{Object as Read};
ghost use Rattle.lib_index.specs.Table.{shown};
ghost use Rattle.round_rules.specs.Rounds.{Candidate, Added, is_just};
ghost use Rattle.lib_rounds.specs.Held.{held_as};
ghost use Rattle.lib_rounds.specs.State.{World, IsMember, IsOffer, IsEntry, Hold, Defines, Answers, Fills, Loads, AddsOne, AddsAll, FailsBy, seen_entries};

use crate::adds::{Adds, Wanted};
use crate::error::RoundError;
use crate::lies::least_lie;
use crate::offer::{Inputs, Offer};
use crate::slot::Slot;
use crate::table::{Table, define};
use object_file::{Object, ObjectError, read_object};
use std::alloc::Global;
use wl_base::{Fault, InputId, Seq};

/// The object of a library's member, which was read early or is read now.
fn read_member(
    inputs: Inputs<'_>,
    slot: &mut Slot<'_>,
    offer: Offer,
) -> Result<Box<Object>, RoundError>
    requires { (read : Result Read Why) × IsMember inputs.libraries.now inputs.files.now offer read }
    ensures same { slot.new ≡ slot.old }
    ensures is { (read : Result Read Why) → IsMember inputs.entry.libraries.now inputs.entry.files.now offer read → Answers (λ o. o.value) result read }
{
    let library = &inputs.libraries[offer.library];
    let span = library.library.member(offer.member);
    let bytes = inputs.files[library.file as usize].as_slice();
    let member = &bytes[span.start as usize..][..span.len as usize];
    if let Some(object) = slot.take_early(offer.input, member) {
        return Ok(object);
    }
    match read_object(inputs.alloc, offer.input, member) {
        Ok(object) => match Box::new(inputs.alloc, object) {
            Ok(object) => Ok(object),
            Err(_) => Err(RoundError::OutOfMemory),
        },
        Err(ObjectError::Refused(fault)) => Err(RoundError::Refused(fault)),
        Err(ObjectError::OutOfMemory) => Err(RoundError::OutOfMemory),
    }
}

/// Fills the slot of an input that isn't loaded.
fn fill(inputs: Inputs<'_>, slots: &mut Vec<Slot<'_>>, offer: Offer) -> Result<(), RoundError>
    ghost c: { Candidate }
    requires offer { IsOffer inputs.libraries.now inputs.files.now offer c }
    requires input { 0 < offer.input }
    requires slot { slice_get slots.old.items (offer.input - 1) ≡ Some (held_as false c.is_member c.object) }
    ensures { Fills result c.object offer.input slots.old.items slots.new.items }
{
    let at = offer.input as usize - 1;
    if slots[at].is_waiting() {
        slots[at].load();
        return Ok(());
    }
    let object = read_member(inputs, &mut slots[at], offer)?;
    slots[at] = Slot::holding(object, true);
    Ok(())
}

/// Loads an input that isn't loaded.
pub fn load(
    inputs: Inputs<'_>,
    slots: &mut Vec<Slot<'_>>,
    definers: &mut Table,
    offer: Offer,
) -> Result<(), RoundError>
    ghost c: { Candidate }
    requires offer { IsOffer inputs.libraries.now inputs.files.now offer c }
    requires input { 0 < offer.input }
    requires slot { slice_get slots.old.items (offer.input - 1) ≡ Some (held_as false c.is_member c.object) }
    ensures { Loads result c.object offer.input slots.old.items slots.new.items (shown definers.old) (shown definers.new) }
{
    fill(inputs, slots, offer)?;
    if let Some(object) = slots[offer.input as usize - 1].object() {
        define(inputs.alloc, definers, object, offer.input)?;
    }
    Ok(())
}

/// The fault of an index that gives a name for an input that doesn't define it.
fn lies(alloc: Global, input: InputId, name: &[u8]) -> RoundError
    ensures { FailsBy result (Some (faults.IndexLies input name.now)) }
{
    match Seq::from_slice(alloc, name) {
        Ok(name) => RoundError::Refused(Fault::IndexLies { input, name }),
        Err(_) => RoundError::OutOfMemory,
    }
}

/// Loads an input for the names that are wanted of it.
fn add(
    inputs: Inputs<'_>,
    slots: &mut Vec<Slot<'_>>,
    definers: &mut Table,
    wanted: &Wanted,
) -> Result<(), RoundError>
    ghost c: { Candidate }
    requires offer { IsOffer inputs.libraries.now inputs.files.now wanted.now.offer c }
    requires input { 0 < wanted.now.offer.input }
    requires slot { slice_get slots.old.items (wanted.now.offer.input - 1) ≡ Some (held_as false c.is_member c.object) }
    requires fresh { (n : _) → is_just wanted.now.offer.input (lookup (bytes_eq n) (shown definers.old)) ≡ Bool.false }
    ensures { AddsOne result (record { candidate = c; names = wanted.now.names }) wanted.now.offer.input slots.old.items slots.new.items (shown definers.old) (shown definers.new) }
{
    let input = wanted.offer.input;
    load(inputs, slots, definers, wanted.offer)?;
    match least_lie(definers, input, &wanted.names) {
        None => Ok(()),
        Some(name) => Err(lies(inputs.alloc, input, name)),
    }
}

/// Loads what a round adds, and answers its inputs.
pub fn add_all(
    inputs: Inputs<'_>,
    slots: &mut Vec<Slot<'_>>,
    definers: &mut Table,
    adds: &mut Adds,
) -> Result<Seq<InputId>, RoundError>
    ghost w: { World }
    requires numbered { (i : ℕ) (c : Candidate) → slice_get w.all i ≡ Some c → c.input ≡ i + 1 }
    requires hold { Hold w.all slots.old.items }
    requires defines { Defines w.mode slots.old.items (shown definers.old) }
    requires ordered { IsOrdered nat_cmp adds.old }
    requires entries { All (λ e. IsEntry w.all inputs.libraries.now inputs.files.now slots.old.items e.0 e.1) adds.old.entries }
    ensures { AddsAll result w (seen_entries adds.old) slots.old.items slots.new.items (shown definers.new) }
{
    let mut new = Seq::new(inputs.alloc);
    while let Some((input, wanted)) = adds.pop_first() {
        add(inputs, slots, definers, &wanted)?;
        new.push(input)?;
    }
    Ok(new)
}
