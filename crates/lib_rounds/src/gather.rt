//! Looking at names: what the next round adds.
ghost use Rattle.std.specs.Prelude.{◌≡◌, ℕ, List, ◌∷◌, [], ◌++◌, flat_map, cond, Some, OnOk, IfOk, option_copied};
ghost use Rattle.std.specs.Ordering.{nat_cmp};
ghost use Rattle.std.specs.BTreeMap.{IsOrdered, get, is_at};
ghost use Rattle.lib_index.specs.Table.{shown};
ghost use Rattle.round_rules.specs.Rounds.{strong_names};
ghost use Rattle.lib_rounds.specs.Lean.{first_names};
ghost use Rattle.lib_rounds.specs.Held.{object_held, loaded_objects};
ghost use Rattle.lib_rounds.specs.State.{World, Knows, Hold, Defines, Shows, Looked, Looks, pushed, slot_at, names_at};

use crate::adds::{Adds, Wanted, WantedNames};
use crate::offer::{Inputs, Offer, offer_of};
use crate::slot::Slot;
use crate::table::{Table, input_of, wanted_at};
use object_file::Object;
use std::alloc::Global;
use wl_base::{InputId, Name, OutOfMemory};

/// What is looked at to find who is added.
#[derive(Clone, Copy)]
pub struct Sight<'a> {
    pub inputs: Inputs<'a>,
    pub lazies: &'a Table,
    pub definers: &'a Table,
    pub slots: &'a [Slot<'a>],
}

/// Adds what offers the name for it. Nearly all are added for one name, so it is put in first.
fn push(alloc: Global, adds: &mut Adds, offer: Offer, name: &[u8]) -> Result<(), OutOfMemory>
    ensures ordered { OnOk result (IsOrdered nat_cmp adds.new) }
    ensures law { OnOk result ((q : ℕ) → get nat_cmp adds.new q ≡ cond (is_at (nat_cmp offer.input) q) (Some (pushed (get nat_cmp adds.old offer.input) offer name.now)) (get nat_cmp adds.old q)) }
{
    let one = Wanted {
        offer,
        names: WantedNames::of(alloc, name)?,
    };
    if let Some(
        Wanted {
            offer: first,
            names,
        },
    ) = adds.insert(offer.input, one)?
    {
        let more = Wanted {
            offer: first,
            names: names.with(alloc, name)?,
        };
        adds.insert(offer.input, more)?;
    }
    Ok(())
}

/// Looks at a name.
fn look(sight: Sight<'_>, name: &[u8], adds: &mut Adds) -> Result<(), OutOfMemory>
    ghost w: { World }
    requires knows { Knows w.all sight.inputs.libraries.now sight.inputs.files.now (shown sight.lazies.now) }
    requires defines { Defines w.mode sight.slots.now (shown sight.definers.now) }
    requires hold { Hold w.all sight.slots.now }
    ensures { OnOk result (Looks w sight.entry.inputs.libraries.now sight.entry.inputs.files.now sight.entry.slots.now (name.now ∷ []) adds.old adds.new) }
{
    if input_of(sight.definers, name).is_some() {
        return Ok(());
    }
    let Some(offer) = offer_of(sight.inputs, sight.lazies, name) else {
        return Ok(());
    };
    if sight.slots[offer.input as usize - 1].is_loaded() {
        return Ok(());
    }
    push(sight.inputs.alloc, adds, offer, name)
}

/// Looks at the names that an object refers to strongly.
fn look_object(sight: Sight<'_>, object: &Object, adds: &mut Adds) -> Result<(), OutOfMemory>
    ghost w: { World }
    requires knows { Knows w.all sight.inputs.libraries.now sight.inputs.files.now (shown sight.lazies.now) }
    requires defines { Defines w.mode sight.slots.now (shown sight.definers.now) }
    requires hold { Hold w.all sight.slots.now }
    ensures { OnOk result (Looks w sight.entry.inputs.libraries.now sight.entry.inputs.files.now sight.entry.slots.now (strong_names object.now) adds.old adds.new) }
{
    for at in 0..object.symbols.len() {
        if let Some(name) = wanted_at(object, at) {
            look(sight, name, adds)?;
        }
    }
    Ok(())
}

/// The object of an input, where it is read.
fn object_at<'a>(slots: &'a [Slot<'_>], input: InputId) -> Option<&'a Object>
    ensures { option_copied result ≡ object_held (slot_at slots.now input) }
{
    match slots.get((input as usize).saturating_sub(1)) {
        Some(slot) => slot.object(),
        None => None,
    }
}

/// Looks at the names that the objects of inputs refer to strongly.
fn look_new(sight: Sight<'_>, new: &[InputId], adds: &mut Adds) -> Result<(), OutOfMemory>
    ghost w: { World }
    requires knows { Knows w.all sight.inputs.libraries.now sight.inputs.files.now (shown sight.lazies.now) }
    requires defines { Defines w.mode sight.slots.now (shown sight.definers.now) }
    requires hold { Hold w.all sight.slots.now }
    ensures { OnOk result (Looks w sight.entry.inputs.libraries.now sight.entry.inputs.files.now sight.entry.slots.now (names_at sight.entry.slots.now new.now) adds.old adds.new) }
{
    for input in new {
        if let Some(object) = object_at(sight.slots, *input) {
            look_object(sight, object, adds)?;
        }
    }
    Ok(())
}

/// Looks at the names that the loaded objects refer to strongly.
fn look_loaded(sight: Sight<'_>, adds: &mut Adds) -> Result<(), OutOfMemory>
    ghost w: { World }
    requires knows { Knows w.all sight.inputs.libraries.now sight.inputs.files.now (shown sight.lazies.now) }
    requires defines { Defines w.mode sight.slots.now (shown sight.definers.now) }
    requires hold { Hold w.all sight.slots.now }
    ensures { OnOk result (Looks w sight.entry.inputs.libraries.now sight.entry.inputs.files.now sight.entry.slots.now (flat_map strong_names (loaded_objects sight.entry.slots.now)) adds.old adds.new) }
{
    for at in 0..sight.slots.len() {
        if let Some(object) = sight.slots[at].loaded() {
            look_object(sight, object, adds)?;
        }
    }
    Ok(())
}

/// Looks at the names that the words ask for.
fn look_asked(sight: Sight<'_>, wanted: &[Name], adds: &mut Adds) -> Result<(), OutOfMemory>
    ghost w: { World }
    requires knows { Knows w.all sight.inputs.libraries.now sight.inputs.files.now (shown sight.lazies.now) }
    requires defines { Defines w.mode sight.slots.now (shown sight.definers.now) }
    requires hold { Hold w.all sight.slots.now }
    ensures { OnOk result (Looks w sight.entry.inputs.libraries.now sight.entry.inputs.files.now sight.entry.slots.now wanted.now adds.old adds.new) }
{
    for at in 0..wanted.len() {
        look(sight, wanted[at].as_slice(), adds)?;
    }
    Ok(())
}

/// What the first round adds.
pub fn first_adds(sight: Sight<'_>, wanted: &[Name]) -> Result<Adds, OutOfMemory>
    ghost w: { World }
    requires knows { Knows w.all sight.inputs.libraries.now sight.inputs.files.now (shown sight.lazies.now) }
    requires defines { Defines w.mode sight.slots.now (shown sight.definers.now) }
    requires hold { Hold w.all sight.slots.now }
    ensures { IfOk result (λ adds. (inputs : List ℕ) → Shows w.all sight.entry.slots.now inputs
        → Looked w sight.entry.inputs.libraries.now sight.entry.inputs.files.now sight.entry.slots.now inputs (first_names wanted.now (loaded_objects sight.entry.slots.now)) adds) }
{
    let mut adds = Adds::new(sight.inputs.alloc);
    look_asked(sight, wanted, &mut adds)?;
    look_loaded(sight, &mut adds)?;
    Ok(adds)
}

/// What the round after one that added these inputs adds.
pub fn next_adds(sight: Sight<'_>, new: &[InputId]) -> Result<Adds, OutOfMemory>
    ghost w: { World }
    requires knows { Knows w.all sight.inputs.libraries.now sight.inputs.files.now (shown sight.lazies.now) }
    requires defines { Defines w.mode sight.slots.now (shown sight.definers.now) }
    requires hold { Hold w.all sight.slots.now }
    ensures { IfOk result (λ adds. (inputs : List ℕ) → Shows w.all sight.entry.slots.now inputs
        → Looked w sight.entry.inputs.libraries.now sight.entry.inputs.files.now sight.entry.slots.now inputs (names_at sight.entry.slots.now new.now) adds) }
{
    let mut adds = Adds::new(sight.inputs.alloc);
    look_new(sight, new, &mut adds)?;
    Ok(adds)
}
