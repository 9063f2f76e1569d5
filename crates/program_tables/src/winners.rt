//! The winners of all names.
ghost use Rattle.std.specs.Prelude.{◌≡◌, ◌++◌, ◌<◌, ◌==◌, [], Some, IsSome, length, map, filter_map, flat_map, slice_index_or, OnOk, IfOk};
ghost use Rattle.link_program.specs.made_symbols.Made.{made, made_at};
ghost use Rattle.link_program.specs.name_rules.Entries.{InputSymbol, made_entry, made_from};
ghost use Rattle.link_program.specs.name_entries.View.{rows_of, entry_at};
ghost use Rattle.link_program.specs.name_entries.Fits.{Fits, FitsObjects};
ghost use Rattle.program_tables.specs.Winners.{is_rank, winner_of, winners_in};

use crate::definitions::{definition_at, made_definition};
use crate::pushing::push_some;
use link_program::{Entries, Winner};
use made_symbols::{Mode, class, count};
use std::alloc::Global;
use symbol_race::{Winners, rank};
use wl_base::{OutOfMemory, Seq};

/// The flags of a linker-made symbol: HIDDEN.
const MADE_FLAGS: u32 = 0x04;

/// Whether the rank is this one.
fn is_rank(rank: u64, best: Option<u64>) -> bool
    ensures { result ≡ is_rank rank best }
{
    match best {
        Some(best) => rank == best,
        None => false,
    }
}

/// A linker-made symbol, by its number, where it is the winner of its name.
fn made_winner(entries: Entries<'_>, ranks: &Winners, mode: Mode, number: u32) -> Option<Winner>
    requires fits { Fits mode entries }
    requires below { number < length (made mode) }
    ensures { result ≡ winner_of entries.entry.names.now.names ranks.now (made_entry number (made_at mode number)) }
{
    let name = entries.names.made(number)?;
    if !is_rank(rank(class(mode, number), 0, number), ranks.of(name)) {
        return None;
    }
    Some(Winner {
        definition: made_definition(mode, number),
        name,
        flags: MADE_FLAGS,
    })
}

/// The symbol at a place of an object, by the object's place, where it is the winner of its name.
fn winner_at(entries: Entries<'_>, ranks: &Winners, object: u32, place: u32) -> Option<Winner>
    requires fits { FitsObjects entries }
    requires there { IsSome (entry_at entries.objects.now object place) }
    ensures { (e : InputSymbol) → entry_at entries.entry.objects.now object place ≡ Some e
        → result ≡ winner_of entries.entry.names.now.names ranks.now e }
{
    let Some(entry) = entries.entry(object, place) else {
        unreachable!()
    };
    let name = entry.number?;
    if !is_rank(rank(entry.class, entry.input, place), ranks.of(name)) {
        return None;
    }
    Some(Winner {
        definition: definition_at(entries, object, place),
        name,
        flags: entry.symbol.flags,
    })
}

/// The linker-made winners.
fn made_winners(
    alloc: Global,
    entries: Entries<'_>,
    ranks: &Winners,
    mode: Mode,
) -> Result<Seq<Winner>, OutOfMemory>
    requires { Fits mode entries }
    ensures { IfOk result (λ winners. winners ≡ filter_map (winner_of entries.entry.names.now.names ranks.now) (made_from 0 (made mode))) }
{
    let mut winners = Seq::new(alloc);
    for number in 0..count(mode) {
        push_some(&mut winners, made_winner(entries, ranks, mode, number))?;
    }
    Ok(winners)
}

/// Puts the winners that an object has at the end.
fn add_winners(
    winners: &mut Seq<Winner>,
    entries: Entries<'_>,
    ranks: &Winners,
    object: u32,
) -> Result<(), OutOfMemory>
    requires { FitsObjects entries }
    ensures { OnOk result (winners.new ≡ winners.old
        ++ filter_map (winner_of entries.entry.names.now.names ranks.now) (slice_index_or (rows_of entries.entry.objects.now) object [])) }
{
    for place in 0..entries.symbols(object) {
        push_some(winners, winner_at(entries, ranks, object, place))?;
    }
    Ok(())
}

/// The winners of all names: the linker's own by number, then those of objects by input and place.
pub(crate) fn all_winners(
    alloc: Global,
    entries: Entries<'_>,
    ranks: &Winners,
    mode: Mode,
) -> Result<Seq<Winner>, OutOfMemory>
    requires { Fits mode entries }
    ensures { IfOk result (λ winners. winners ≡ winners_in mode entries.entry.names.now.names ranks.now entries.entry.objects.now) }
{
    let mut winners = made_winners(alloc, entries, ranks, mode)?;
    for object in 0..entries.count() {
        add_winners(&mut winners, entries, ranks, object)?;
    }
    Ok(winners)
}
