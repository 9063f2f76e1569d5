//! What is loaded at once, before the first round.
ghost use Rattle.std.specs.Prelude.{◌≡◌, ◌+◌, ◌-◌, ◌<◌, ◌≤◌, ◌^◌, ℕ, List, length, filter, flat_map, cond, OnOk, IfOk, Some, None, All, slice_get, replicate};
ghost use Rattle.std.specs.List.{list_any};
ghost use Rattle.std.specs.Map.{lookup};
ghost use Rattle.std.specs.Str.{bytes_eq};
ghost use Rattle.lib_index.specs.Table.{shown};
ghost use Rattle.made_symbols.specs.Made.{made};
ghost use Rattle.round_rules.specs.declared.given.LibraryFile.{LibraryFile as AtLibrary};
ghost use Rattle.lib_rounds.specs.Held.{absent};
ghost use Rattle.round_rules.specs.Inputs.{members_of, AreCandidates, IsRead};
ghost use Rattle.lib_rounds.specs.State.{World, Hold, Defines};
ghost use Rattle.lib_rounds.specs.Begin.{IsPut, KnowsGiven, PutsAll, KnowsMembers, LoadsAll, Begins, input_count};

use crate::early::Early;
use crate::error::RoundError;
use crate::given::GivenObject;
use crate::loading::load;
use crate::offer::{Inputs, Offer};
use crate::slot::Slot;
use crate::table::{Table, define, put};
use indexmap::IndexMap;
use made_symbols::Mode;
use round_rules::LibraryFile;
use std::alloc::Global;
use wl_base::{OutOfMemory, Seq};

/// The names that the linker makes, as those of input 0.
fn made_names(alloc: Global, mode: Mode) -> Result<Table, OutOfMemory>
    ensures { IfOk result (λ table. (n : List ℕ) → lookup (bytes_eq n) (shown table) ≡ cond (list_any (λ m. bytes_eq n m.name) (made mode)) (Some 0) None) }
{
    let mut table: Table = IndexMap::new(alloc);
    for k in 0..made_symbols::count(mode) {
        put(alloc, &mut table, made_symbols::name(mode, k), 0)?;
    }
    Ok(table)
}

/// How many inputs there are.
fn count_inputs(given: usize, libraries: &[LibraryFile]) -> usize
    requires { input_count given libraries.now < 2 ^ 20 }
    ensures { result ≡ input_count given libraries.now }
{
    let mut count = given;
    for at in 0..libraries.len() {
        count += libraries[at].library.count() as usize;
    }
    count
}

/// So many slots of inputs that aren't read.
fn empty_slots<'a>(alloc: Global, count: usize) -> Result<Vec<Slot<'a>>, OutOfMemory>
    ensures { IfOk result (λ slots. slots.items ≡ replicate count absent) }
{
    let mut slots = Vec::with_capacity(alloc, count)?;
    for _at in 0..count {
        slots.push(Slot::absent())?;
    }
    Ok(slots)
}

/// Keeps the members that are read early.
pub fn put_early<'a>(slots: &mut Vec<Slot<'a>>, early: Vec<Early<'a>>)
    ensures { slots.new.items ≡ slots.old.items }
{
    let mut left = early.into_iter();
    while let Some(member) = left.next() {
        let at = (member.input() as usize).saturating_sub(1);
        if at < slots.len() {
            slots[at].expect(member);
        }
    }
}

/// So many slots of inputs that aren't loaded, with the members that are read early.
fn slots_for<'a>(
    alloc: Global,
    count: usize,
    early: Vec<Early<'a>>,
) -> Result<Vec<Slot<'a>>, OutOfMemory>
    ensures { IfOk result (λ slots. slots.items ≡ replicate count absent) }
{
    let mut slots = empty_slots(alloc, count)?;
    put_early(&mut slots, early);
    Ok(slots)
}

/// Puts an object of the words into its slot.
fn put_one(
    alloc: Global,
    given: GivenObject,
    slots: &mut Vec<Slot<'_>>,
    lazies: &mut Table,
    definers: &mut Table,
) -> Result<(), OutOfMemory>
    requires { (0 < given.object.input) × (given.object.input ≤ length slots.old.items) }
    ensures { OnOk result (IsPut given slots.old.items slots.new.items (shown lazies.old) (shown lazies.new) (shown definers.old) (shown definers.new)) }
{
    let object = given.object();
    let input = object.input;
    if given.is_lazy() {
        define(alloc, lazies, object, input)?;
    } else {
        define(alloc, definers, object, input)?;
    }
    slots[input as usize - 1] = given.into_slot();
    Ok(())
}

/// Puts the objects of the words into their slots.
fn put_given(
    alloc: Global,
    given: Seq<GivenObject>,
    slots: &mut Vec<Slot<'_>>,
    lazies: &mut Table,
    definers: &mut Table,
) -> Result<(), OutOfMemory>
    ghost w: { World }
    requires knows { KnowsGiven w.all given }
    requires slots { slots.old.items ≡ replicate (length w.all) absent }
    requires defines { Defines w.mode slots.old.items (shown definers.old) }
    requires none { (n : List ℕ) → lookup (bytes_eq n) (shown lazies.old) ≡ None }
    ensures { OnOk result (PutsAll w given slots.new.items (shown lazies.new) (shown definers.new)) }
{
    let mut left = given;
    while let Some(object) = left.pop() {
        put_one(alloc, object, slots, lazies, definers)?;
    }
    Ok(())
}

/// Loads the members of a library that aren't loaded.
fn load_library(
    inputs: Inputs<'_>,
    slots: &mut Vec<Slot<'_>>,
    definers: &mut Table,
    at: usize,
) -> Result<(), RoundError>
    ghost w: { World }
    requires within { at < length inputs.libraries.now }
    requires knows { KnowsMembers w.all inputs.libraries.now inputs.files.now }
    requires hold { Hold w.all slots.old.items }
    requires defines { Defines w.mode slots.old.items (shown definers.old) }
    ensures { (l : AtLibrary) → slice_get inputs.entry.libraries.now at ≡ Some l
        → LoadsAll result w (members_of inputs.entry.files.now l) slots.old.items slots.new.items (shown definers.new) }
{
    let library = &inputs.libraries[at];
    for member in 0..library.library.count() {
        let input = library.first + member;
        if !slots[input as usize - 1].is_loaded() {
            let offer = Offer {
                input,
                library: at,
                member,
            };
            load(inputs, slots, definers, offer)?;
        }
    }
    Ok(())
}

/// Loads the members of all libraries that are loaded whole.
fn load_whole(
    inputs: Inputs<'_>,
    slots: &mut Vec<Slot<'_>>,
    definers: &mut Table,
) -> Result<(), RoundError>
    ghost w: { World }
    requires knows { KnowsMembers w.all inputs.libraries.now inputs.files.now }
    requires hold { Hold w.all slots.old.items }
    requires defines { Defines w.mode slots.old.items (shown definers.old) }
    ensures { LoadsAll result w (flat_map (members_of inputs.entry.files.now) (filter (λ l. l.whole) inputs.entry.libraries.now)) slots.old.items slots.new.items (shown definers.new) }
{
    for at in 0..inputs.libraries.len() {
        if inputs.libraries[at].whole {
            load_library(inputs, slots, definers, at)?;
        }
    }
    Ok(())
}

/// What is kept before the first round.
#[derive(Drop)]
pub struct Start<'a> {
    /// A slot for each input, from input 1 on.
    pub slots: Vec<Slot<'a>>,
    /// An input for each name that is defined; 0 is the linker.
    pub definers: Table,
    /// The least lazy object for each name that one offers.
    pub lazies: Table,
}

/// Loads what is loaded at once: the objects of the words that aren't lazy, and the members of whole
/// libraries. The members that are read early are kept.
pub fn begin<'a>(
    inputs: Inputs<'_>,
    given: Seq<GivenObject>,
    early: Vec<Early<'a>>,
    mode: Mode,
) -> Result<Start<'a>, RoundError>
    ghost w: { World }
    requires same { w.mode ≡ mode }
    requires are { AreCandidates w.all given inputs.libraries.now inputs.files.now }
    requires read { All (IsRead inputs.files.now) inputs.libraries.now }
    ensures { Begins result w.all mode inputs.entry.libraries.now inputs.entry.files.now }
{
    let mut definers = made_names(inputs.alloc, mode)?;
    let mut lazies: Table = IndexMap::new(inputs.alloc);
    let mut slots = slots_for(
        inputs.alloc,
        count_inputs(given.len(), inputs.libraries),
        early,
    )?;
    put_given(inputs.alloc, given, &mut slots, &mut lazies, &mut definers)?;
    load_whole(inputs, &mut slots, &mut definers)?;
    Ok(Start {
        slots,
        definers,
        lazies,
    })
}
