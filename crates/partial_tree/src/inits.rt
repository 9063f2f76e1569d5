//! The init functions of the object: those of all loaded objects that aren't skipped, by input and place.
ghost use Rattle.std.specs.Prelude.{◌≡◌, ◌+◌, ◌++◌, [], false, filter_map, IfOk, OnOk};
ghost use Rattle.std.specs.List.{cons_option};
ghost use Rattle.partial_symbols.specs.link_program.name_entries.Fits.{FitsObjects};
ghost use Rattle.partial_symbols.specs.link_program.link_rules.Program.{Program as Rules};
ghost use Rattle.partial_symbols.specs.link_program.declared.program.Program.{Program as Data};
ghost use Rattle.partial_symbols.specs.link_program.made_symbols.declared.mode.Mode.TheVariants.{Plain};
ghost use Rattle.partial_symbols.specs.link_program.Program.{IsProgramOf};
ghost use Rattle.partial_symbols.specs.partial_rules.Partial as partial;
ghost use Rattle.partial_symbols.specs.Known.{AreStanding};
ghost use Rattle.partial_tree.specs.Inits.{init_at, inits_from};

use linking_section::InitFunc;
use partial_symbols::{Entries, Standing};
use std::alloc::Global;
use wl_base::{OutOfMemory, Seq};

/// The sum. One of 2^32 and more is answered as want of memory.
fn place_after(start: u32, more: usize) -> Result<u32, OutOfMemory>
    ensures { IfOk result (λ n. n ≡ start + more) }
{
    let Ok(more) = u32::try_from(more) else {
        return Err(OutOfMemory);
    };
    match start.checked_add(more) {
        Some(n) => Ok(n),
        None => Err(OutOfMemory),
    }
}

/// An init function of an object whose symbols stand from a place on among those of all objects.
fn init_at(
    standing: &Standing,
    entries: Entries<'_>,
    object: u32,
    start: u32,
    init: InitFunc,
) -> Result<Option<InitFunc>, OutOfMemory>
    requires { FitsObjects entries }
    ensures { IfOk result (λ i. i ≡ init_at standing.now entries.entry.names.now.names entries.entry.objects.now object start init) }
{
    let Some(entry) = entries.entry(object, init.symbol) else {
        return Ok(None);
    };
    if !entry.symbol.is_undefined() && !entry.defines {
        return Ok(None);
    }
    let place = place_after(start, init.symbol as usize)?;
    let symbol = standing.number_by(entry.number, place);
    Ok(Some(InitFunc {
        priority: init.priority,
        symbol,
    }))
}

/// Puts an init function behind others, where there is one.
fn put(inits: &mut Seq<InitFunc>, found: Option<InitFunc>) -> Result<(), OutOfMemory>
    ensures { OnOk result (inits.new ≡ inits.old ++ cons_option found []) }
{
    if let Some(init) = found {
        inits.push(init)?;
    }
    Ok(())
}

/// Puts the init functions of an object behind others.
fn put_all(
    inits: &mut Seq<InitFunc>,
    standing: &Standing,
    entries: Entries<'_>,
    object: u32,
    start: u32,
    more: &[InitFunc],
) -> Result<(), OutOfMemory>
    requires { FitsObjects entries }
    ensures { OnOk result (inits.new ≡ inits.old ++ filter_map (init_at standing.now entries.entry.names.now.names entries.entry.objects.now object start) more.now) }
{
    for init in more {
        let found = init_at(standing, entries, object, start, *init)?;
        put(inits, found)?;
    }
    Ok(())
}

/// The init functions of all objects.
#[tactic(auto, using(crate::proofs::Initial::object_more, crate::proofs::Initial::objects_end, crate::proofs::Initial::no_object))]
fn inits_in(
    alloc: Global,
    standing: &Standing,
    entries: Entries<'_>,
) -> Result<Seq<InitFunc>, OutOfMemory>
    requires { FitsObjects entries }
    ensures { IfOk result (λ is. is ≡ inits_from standing.now entries.entry.names.now.names entries.entry.objects.now 0 0 entries.entry.objects.now) }
{
    let mut inits = Seq::new(alloc);
    let mut start = 0;
    for object in 0..entries.count() {
        let Some(from) = entries.objects.get(object as usize) else {
            return Ok(inits);
        };
        put_all(
            &mut inits,
            standing,
            entries,
            object,
            start,
            from.inits.as_slice(),
        )?;
        start = place_after(start, from.symbols.len())?;
    }
    Ok(inits)
}

/// The init functions of the object that a partial link makes of a program, by the symbols that stand there. `entries` is the view of
/// the program's objects.
pub fn inits_of(
    alloc: Global,
    standing: &Standing,
    entries: Entries<'_>,
) -> Result<Seq<InitFunc>, OutOfMemory>
    requires { FitsObjects entries }
    ensures { IfOk result (λ is. (d : Data) (p : Rules) → IsProgramOf Plain d p → p.plan.loose_calls ≡ false → d.objects.now ≡ entries.entry.objects.now → d.names.now ≡ entries.entry.names.now
        → AreStanding p d.names.now.names standing.now → is ≡ (partial.relocatable p).inits) }
{
    let inits = inits_in(alloc, standing, entries)?;
    Ok(inits)
}
