//! The tables of a program.
ghost use Rattle.std.specs.Prelude.{◌≡◌, IfOk};
ghost use Rattle.link_program.specs.name_rules.Entries.{entries as all_entries};
ghost use Rattle.link_program.specs.name_rules.Meanings.{resolve};
ghost use Rattle.link_program.specs.name_entries.View.{WinnersAre};
ghost use Rattle.link_program.specs.name_entries.Fits.{Fits};
ghost use Rattle.link_program.specs.name_meanings.Means.{IsResolution};
ghost use Rattle.link_program.specs.link_rules.Program.{program_of};
ghost use Rattle.link_program.specs.Loaded.{Origin, IsLoaded};
ghost use Rattle.link_program.specs.Program.{AreTables};
ghost use Rattle.program_tables.specs.Loose.{IsLoose};

use crate::loose::Loose;
use crate::objects::places_by_input;
use crate::parts::{AllParts, all_parts};
use crate::symbols::{AllSymbols, Sources, all_symbols};
use crate::types::{AllTypes, all_types};
use crate::view::Lookups;
use crate::winners::all_winners;
use link_program::{Entries, Home, Mode, Resolution, Tables};
use std::alloc::Global;
use std::thread::Threads;
use symbol_race::Winners;
use wl_base::OutOfMemory;
use wl_fan::Workers;

/// The tables of the program of these loaded objects for an output of the mode, by the numbers of names and imports. `ranks` has the winner of each name,
/// `resolution` what each symbol means, `homes` where the bytes of each candidate begin, `loose` what is called by other types.
///
/// The parts are made by the workers, where there are many; what is answered doesn't depend on their number.
/// 2^32 symbols, or 2^32 - 1 parts, are answered as want of memory. `origin` is where the objects come from, by which the program is
/// defined.
pub fn tables_of<R: Threads + Sync>(
    rt: &R,
    alloc: Global,
    entries: Entries<'_>,
    ranks: &Winners,
    resolution: &Resolution,
    homes: &[Home],
    loose: &Loose,
    mode: Mode,
    workers: Workers,
) -> Result<Tables, OutOfMemory>
    ghost origin: { Origin }
    requires fits { Fits mode entries }
    requires winners { WinnersAre entries.names.now.names (all_entries mode entries.objects.now) ranks.now }
    requires resolution { IsResolution mode (all_entries mode entries.objects.now) resolution.now
        (resolve mode origin.plan.allow_undefined (all_entries mode entries.objects.now) entries.objects.now) }
    requires loaded { IsLoaded origin.files origin.all entries.objects.now homes.now }
    requires loose { IsLoose mode origin.plan.loose_calls origin.plan.allow_undefined entries.names.now.names resolution.now.imports entries.objects.now loose.now }
    ensures { IfOk result (λ tables. AreTables entries.entry.names.now.names resolution.now.imports tables
        (program_of mode origin.plan origin.files origin.all entries.entry.objects.now)) }
{
    let places = places_by_input(alloc, entries)?;
    let sources = Sources {
        entries,
        mode,
        resolution,
        places: places.as_slice(),
    };
    let AllSymbols { symbols, firsts } = all_symbols(alloc, sources, loose.symbols.as_slice())?;
    let winners = all_winners(alloc, entries, ranks, mode)?;
    let kinds = all_types(alloc, entries.objects, loose.types.as_slice())?;
    let lookups = Lookups {
        entries,
        firsts: firsts.as_slice(),
        types: kinds.numbers(),
        homes,
        called: loose.called.as_slice(),
    };
    let AllParts {
        parts,
        named,
        chunks,
    } = all_parts(rt, alloc, lookups, mode, workers)?;
    let AllTypes {
        types,
        numbers: _,
        variants,
    } = kinds;
    Ok(Tables {
        symbols,
        winners,
        parts,
        named,
        types,
        chunks,
        variants,
    })
}
