//! What `__wasm_call_ctors` calls (Linking.md, "Init Functions Subsection").
ghost use Rattle.std.specs.Prelude.{◌≡◌, ◌||◌, ◌+◌, ◌<◌, ◌^◌, ◌++◌, [], Some, IsSome, length, map, filter_map, slice_get, OnOk, IfOk};
ghost use Rattle.link_program.specs.linking_section.Flags.{is_undefined};
ghost use Rattle.link_program.specs.object_columns.Seen.{symbol_seen};
ghost use Rattle.link_program.specs.name_entries.Fits.{FitsObjects};
ghost use Rattle.program_tables.specs.Inits.{call_of, calls_of, calls_upto, by_key, priority_of, call_names};
ghost use Rattle.program_tables.specs.Views.{view_seen, view_at};

use crate::pushing::push_some;
use crate::view::{Lookups, ObjectView};
use link_program::{Entries, EntryRef, Named};
use linking_section::InitFunc;
use std::alloc::Global;
use wl_base::{OutOfMemory, Seq};

/// A call of an init function. Those of lesser priority come first.
#[derive(Clone, Copy)]
pub(crate) struct InitCall {
    pub(crate) priority: u32,
    pub(crate) named: Named,
}

/// Whether an init function of this symbol is called: not where it is defined in a part that isn't kept.
fn is_used(entry: EntryRef<'_>) -> bool
    ensures { result ≡ (entry.entry.defines || is_undefined (symbol_seen entry.entry.symbol)) }
{
    entry.defines || entry.symbol.is_undefined()
}

/// The call of an init function of an object, which has this place.
fn call_of(
    entries: Entries<'_>,
    view: ObjectView<'_>,
    object: u32,
    init: InitFunc,
) -> Option<InitCall>
    requires fits { FitsObjects entries }
    requires few { view.first + length view.from.now.symbols < 2 ^ 32 }
    requires there { slice_get entries.objects.now object ≡ Some view.from.now }
    ensures { result ≡ call_of entries.entry.objects.now (view_seen view.entry) init }
{
    let entry = entries.entry(object, init.symbol)?;
    if !is_used(entry) {
        return None;
    }
    Some(InitCall {
        priority: init.priority,
        named: Named::Symbol {
            kind: 0,
            place: 0,
            addend: 0,
            symbol: view.called(init.symbol),
        },
    })
}

/// Puts the calls of an object's init functions at the end.
fn add_calls(
    calls: &mut Seq<InitCall>,
    lookups: Lookups<'_>,
    object: u32,
) -> Result<(), OutOfMemory>
    requires fits { FitsObjects lookups.entries }
    requires there { object < length lookups.entries.objects.now }
    ensures { OnOk result (calls.new ≡ calls.old ++ calls_of lookups.entry object) }
{
    let view = lookups.view(object)?;
    for init in view.from.inits.as_slice() {
        push_some(calls, call_of(lookups.entries, view, object, *init))?;
    }
    Ok(())
}

/// The calls of the init functions of all objects, by input and then by their places.
fn all_calls(alloc: Global, lookups: Lookups<'_>) -> Result<Seq<InitCall>, OutOfMemory>
    requires { FitsObjects lookups.entries }
    ensures { IfOk result (λ calls. calls ≡ calls_upto lookups.entry (length lookups.entry.entries.objects.now)) }
{
    let mut calls = Seq::new(alloc);
    for object in 0..lookups.entries.count() {
        add_calls(&mut calls, lookups, object)?;
    }
    Ok(calls)
}

/// Puts calls in the order of their priorities; those of one priority stay as they stand.
fn sort_calls(calls: &mut Vec<InitCall>) -> Result<(), OutOfMemory>
    ensures { OnOk result (calls.new.items ≡ by_key priority_of calls.old.items) }
{
    calls.sort_by_key(|call| call.priority)?;
    Ok(())
}

/// What `__wasm_call_ctors` calls, in order.
pub(crate) fn init_calls(alloc: Global, lookups: Lookups<'_>) -> Result<Seq<Named>, OutOfMemory>
    requires { FitsObjects lookups.entries }
    ensures { IfOk result (λ named. named ≡ call_names lookups.entry) }
{
    let mut calls = all_calls(alloc, lookups)?.into_vec();
    sort_calls(&mut calls)?;
    let mut named = Seq::new(alloc);
    for call in &calls {
        named.push(call.named)?;
    }
    Ok(named)
}
