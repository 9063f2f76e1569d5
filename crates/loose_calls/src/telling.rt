//! What is told of functions that are called by another type than their definition has.
ghost use Rattle.std.specs.Prelude.{◌≡◌, ◌<◌, ◌∷◌, [], Bool, IsSome, Some, length, slice_get, slice_index_or, IfOk, IfSome, OnOk};
ghost use Rattle.std.specs.List.{list_any};
ghost use Rattle.program_tables.specs.link_program.wl_base.Choice.{distinct, distinct_onto};
ghost use Rattle.program_tables.specs.link_program.object_file.declared.object.Object.{Object as TheObject};
ghost use Rattle.program_tables.specs.link_program.name_rules.Entries.{InputSymbol, entries as all_entries};
ghost use Rattle.program_tables.specs.link_program.name_rules.Meanings.{here, resolve};
ghost use Rattle.program_tables.specs.link_program.name_entries.View.{rows_of, entry_at};
ghost use Rattle.program_tables.specs.link_program.name_entries.Fits.{Fits, FitsObjects};
ghost use Rattle.program_tables.specs.link_program.name_meanings.Means.{IsResolution};
ghost use Rattle.program_tables.specs.link_program.link_rules.Keys.{function_type_of};
ghost use Rattle.program_tables.specs.link_program.link_rules.Program.{Program};
ghost use Rattle.mismatch_rules.specs.Mismatches.{beside, same_call, mismatches as mismatches_of};
ghost use Rattle.program_tables.specs.Objects.{symbol_of};
ghost use Rattle.program_tables.specs.Loose.{all_symbols};
ghost use Rattle.loose_calls.specs.Found.{CanAsk};
ghost use Rattle.loose_calls.specs.Told.{meant, told_of, definer_seen, LeadsTo};

use crate::finding::{Asking, count_symbols};
use crate::variant::{function_type, name_of, type_at};
use made_symbols::Mode;
use mismatch_rules::Mismatch;
use name_cases::judges_of;
use program_tables::{Entries, Meaning, Resolution};
use std::alloc::Global;
use wasm_types::FuncType;
use wl_base::{InputId, OutOfMemory, Seq};

/// A definition of a function.
#[derive(Debug, Drop)]
pub(crate) struct Definer {
    of_type: FuncType,
    input: InputId,
}

/// Where the object of an input stands.
fn object_of(entries: Entries<'_>, input: InputId) -> Option<u32>
    requires { FitsObjects entries }
    ensures { IfSome result (λ i. (o : TheObject) → slice_get entries.entry.objects.now i ≡ Some o → o.input ≡ input) }
{
    for object in 0..entries.count() {
        if entries.objects[object as usize].input == input {
            return Some(object);
        }
    }
    None
}

/// The type of a function, by its input and its place there. One that isn't there is answered as want of memory.
fn type_there(
    alloc: Global,
    entries: Entries<'_>,
    input: InputId,
    place: u32,
) -> Result<FuncType, OutOfMemory>
    requires { FitsObjects entries }
    ensures { IfOk result (λ t. (d : InputSymbol) → symbol_of entries.entry.objects.now input place ≡ Some d → t ≡ function_type_of d.type) }
{
    let Some(object) = object_of(entries, input) else {
        return Err(OutOfMemory);
    };
    let Some(of_type) = entries.type_of(object, place) else {
        return Err(OutOfMemory);
    };
    let own = function_type(alloc, of_type)?;
    Ok(own)
}

/// The definition that an answer leads to. One that leads to none is answered as want of memory.
fn definer_of(alloc: Global, entries: Entries<'_>, meaning: Meaning) -> Result<Definer, OutOfMemory>
    requires { FitsObjects entries }
    ensures { IfOk result (λ definer. (d : InputSymbol) → LeadsTo entries.entry.objects.now meaning d → definer ≡ definer_seen d) }
{
    match meaning {
        Meaning::Here { input, symbol } => {
            let of_type = type_there(alloc, entries, input, symbol)?;
            Ok(Definer { of_type, input })
        }
        Meaning::Made(_) => Ok(Definer {
            of_type: FuncType {
                params: Seq::new(alloc),
                results: Seq::new(alloc),
            },
            input: 0,
        }),
        Meaning::Import(_) | Meaning::Null | Meaning::Nothing => Err(OutOfMemory),
    }
}

/// What is told of the symbol at a place of an object, which means a definition.
fn mismatch_at(
    alloc: Global,
    asking: Asking<'_>,
    object: u32,
    place: u32,
) -> Result<Mismatch, OutOfMemory>
    ghost allow: { Bool }
    requires asked { CanAsk allow asking }
    requires there { IsSome (entry_at asking.entries.objects.now object place) }
    ensures { IfOk result (λ m. (e d : InputSymbol) → entry_at asking.entry.entries.objects.now object place ≡ Some e
        → meant asking.entry.mode allow asking.entry.entries.objects.now e ≡ here d → m ≡ beside e d) }
{
    let Some(entry) = asking.entries.entry(object, place) else {
        unreachable!()
    };
    let meaning = asking.resolution.meaning(entry.input, place);
    let definer = definer_of(alloc, asking.entries, meaning)?;
    let called = function_type(alloc, type_at(asking.entries, object, place))?;
    let name = Seq::from_slice(alloc, name_of(entry.symbol))?;
    Ok(Mismatch {
        name,
        called,
        input: entry.input,
        defined: definer.of_type,
        definer: definer.input,
    })
}

/// Whether one of them is of the same function and type.
fn is_told(told: &[Mismatch], other: &Mismatch) -> bool
    ensures { result ≡ list_any (same_call other.now) told.now }
{
    told.iter().any(
        |mismatch: &Mismatch| -> bool
            ensures { result ≡ same_call other.entry.now mismatch.now }
        { other.name == mismatch.name && other.called == mismatch.called },
    )
}

/// Tells one more, unless one of the same function and type is told.
fn tell(told: &mut Seq<Mismatch>, mismatch: Mismatch) -> Result<(), OutOfMemory>
    ensures { OnOk result (told.new ≡ distinct_onto same_call told.old (mismatch ∷ [])) }
{
    if is_told(told.as_slice(), &mismatch) {
        return Ok(());
    }
    told.push(mismatch)?;
    Ok(())
}

/// Tells of the symbol at a place of an object.
fn tell_symbol(
    alloc: Global,
    asking: Asking<'_>,
    object: u32,
    place: u32,
    told: &mut Seq<Mismatch>,
) -> Result<(), OutOfMemory>
    ghost allow: { Bool }
    requires asked { CanAsk allow asking }
    requires there { IsSome (entry_at asking.entries.objects.now object place) }
    requires object { object < length asking.entries.objects.now }
    ensures { OnOk result ((e : InputSymbol) → entry_at asking.entry.entries.objects.now object place ≡ Some e
        → told.new ≡ distinct_onto same_call told.old (told_of asking.entry.mode allow asking.entry.entries.objects.now (e ∷ []))) }
{
    if !asking.is_loose(object, place) {
        return Ok(());
    }
    let mismatch = mismatch_at(alloc, asking, object, place)?;
    tell(told, mismatch)?;
    Ok(())
}

/// Tells of the symbols of an object.
fn tell_object(
    alloc: Global,
    asking: Asking<'_>,
    object: u32,
    told: &mut Seq<Mismatch>,
) -> Result<(), OutOfMemory>
    ghost allow: { Bool }
    requires asked { CanAsk allow asking }
    requires object { object < length asking.entries.objects.now }
    ensures { OnOk result (told.new ≡ distinct_onto same_call told.old
        (told_of asking.entry.mode allow asking.entry.entries.objects.now (slice_index_or (rows_of asking.entry.entries.objects.now) object []))) }
{
    for place in 0..asking.entries.symbols(object) {
        tell_symbol(alloc, asking, object, place, told)?;
    }
    Ok(())
}

/// What is told of the symbols of all objects.
fn tell_all(alloc: Global, asking: Asking<'_>) -> Result<Seq<Mismatch>, OutOfMemory>
    ghost allow: { Bool }
    requires { CanAsk allow asking }
    ensures { IfOk result (λ told. told ≡ distinct same_call (told_of asking.entry.mode allow asking.entry.entries.objects.now (all_symbols asking.entry.entries.objects.now))) }
{
    let mut told = Seq::new(alloc);
    for object in 0..asking.entries.count() {
        tell_object(alloc, asking, object, &mut told)?;
    }
    Ok(told)
}

/// The functions that are called by another type than their definition has, the first call of each function and type, by input and place.
/// `allow` is whether undefined functions may be imported, as they were resolved.
pub fn mismatches(
    alloc: Global,
    entries: Entries<'_>,
    resolution: &Resolution,
    mode: Mode,
) -> Result<Seq<Mismatch>, OutOfMemory>
    ghost allow: { Bool }
    requires fits { Fits mode entries }
    requires resolution { IsResolution mode (all_entries mode entries.objects.now) resolution.now (resolve mode allow (all_entries mode entries.objects.now) entries.objects.now) }
    ensures { IfOk result (λ told. (p : Program) → p.entries ≡ all_entries mode entries.entry.objects.now
        → p.resolved ≡ resolve mode allow (all_entries mode entries.entry.objects.now) entries.entry.objects.now → told ≡ mismatches_of p) }
{
    let judges = judges_of(alloc, entries, mode)?;
    let count = count_symbols(entries)?;
    let asking = Asking {
        entries,
        mode,
        resolution,
        judges: &judges,
        count,
    };
    let told = tell_all(alloc, asking)?;
    Ok(told)
}
