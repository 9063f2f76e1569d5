//! Which inputs are loaded.
ghost use Rattle.std.specs.Prelude.{◌≡◌, All, List};
ghost use Rattle.round_rules.specs.Rounds.{Candidate, load};
ghost use Rattle.round_rules.specs.Inputs.{AreCandidates, IsRead};
ghost use Rattle.lib_rounds.specs.State.{World, Answers};
ghost use Rattle.lib_rounds.specs.Begun.{IsBegun, HasBegun};

use crate::adds::Adds;
use crate::begin::{Start, begin, put_early};
use crate::early::Early;
use crate::error::RoundError;
use crate::foresight::{count_defined, read_wanted, read_whole};
use crate::gather::{Sight, first_adds};
use crate::given::GivenObject;
use crate::loaded::Loaded;
use crate::offer::Inputs;
use crate::running::run;
use crate::table::make_room;
use made_symbols::Mode;
use round_rules::LibraryFile;
use std::alloc::Global;
use std::thread::Threads;
use wl_base::{Name, Seq};
use wl_fan::Workers;

/// What is loaded at once, and what the first round adds.
#[derive(Drop)]
struct Begun<'a> {
    start: Start<'a>,
    adds: Adds,
}

/// Loads what is loaded at once, and looks for what the first round adds.
fn begin_rounds<'a>(
    inputs: Inputs<'_>,
    given: Seq<GivenObject>,
    early: Vec<Early<'a>>,
    wanted: &[Name],
    mode: Mode,
) -> Result<Begun<'a>, RoundError>
    ghost w: { World }
    requires same { w.mode ≡ mode }
    requires are { AreCandidates w.all given inputs.libraries.now inputs.files.now }
    requires read { All (IsRead inputs.files.now) inputs.libraries.now }
    ensures { HasBegun result w wanted.now inputs.entry.libraries.now inputs.entry.files.now }
{
    let start = begin(inputs, given, early, mode)?;
    let sight = Sight {
        inputs,
        lazies: &start.lazies,
        definers: &start.definers,
        slots: start.slots.as_slice(),
    };
    let adds = first_adds(sight, wanted)?;
    Ok(Begun { start, adds })
}

/// Does the rounds, with the members that are read early. The mode is only told of.
fn go_on<'a>(
    inputs: Inputs<'_>,
    begun: Begun<'a>,
    early: Vec<Early<'a>>,
    wanted: &[Name],
    mode: Mode,
) -> Result<Loaded, RoundError>
    ghost w: { World }
    requires { IsBegun w wanted.now inputs.libraries.now inputs.files.now begun }
    ensures { Answers (λ l. l) result (load w.mode wanted.now w.all) }
{
    let Begun {
        start: Start {
            mut slots,
            mut definers,
            lazies,
        },
        adds,
    } = begun;
    let names = count_defined(early.as_slice()).max(adds.len());
    make_room(&mut definers, names)?;
    put_early(&mut slots, early);
    run(inputs, &mut slots, &mut definers, &lazies, adds)?;
    let loaded = Loaded::of(inputs.alloc, slots)?;
    Ok(loaded)
}

/// Loads the inputs that a link needs, and answers their objects by rising input.
///
/// Loaded are the objects that aren't lazy and the members of whole libraries; and then, round after
/// round, for each name that the words ask for or a loaded object refers to without WEAK, and that
/// neither the linker makes nor a loaded object defines, the least input that offers it.
///
/// It is `Refused` by the first fault: that of the least member of a whole library that is no
/// object; else, of the first round that has any, that of the least input that the round adds, which
/// is no object, or doesn't define a name for which it is added (`IndexLies`, with the least such
/// name). `all` are the inputs as candidates, by which the call is defined.
///
/// Where there are several workers they first read the members that will probably be needed: those that
/// the first round adds, and those that are needed by what members import and by the data that they
/// don't define.
pub fn load_rounds<R: Threads + Sync>(
    rt: &R,
    alloc: Global,
    given: Seq<GivenObject>,
    libraries: &[LibraryFile],
    files: &[Seq<u8>],
    wanted: &[Name],
    mode: Mode,
    workers: Workers,
) -> Result<Loaded, RoundError>
    ghost all: { List Candidate }
    requires are { AreCandidates all given libraries.now files.now }
    requires read { All (IsRead files.now) libraries.now }
    ensures { Answers (λ l. l) result (load mode wanted.now all) }
{
    let inputs = Inputs {
        alloc,
        libraries,
        files,
    };
    let early = read_whole(rt, inputs, workers)?;
    let begun = begin_rounds(inputs, given, early, wanted, mode)?;
    let early = read_wanted(rt, inputs, &begun.adds, workers)?;
    go_on(inputs, begun, early, wanted, mode)
}
