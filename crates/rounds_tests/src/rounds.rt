//! Rounds over real bytes: two objects of the words, and a library of two members behind them.
ghost use Rattle.std.specs.Prelude.{◌≡◌, ◌+◌, ◌<◌, ◌^◌, ℕ, Some, [], ◌∷◌, length, slice_get, IfSome, IsTrue};
ghost use Rattle.round_rules.specs.declared.given.GivenObject.{GivenObject};
ghost use Rattle.round_rules.specs.Inputs.{IsRead};

use lib_index::read_index;
use lib_rounds::{GivenObject, LibraryFile, Loaded, RoundError, load_rounds};
use made_symbols::Mode;
use object_file::read_object;
use std::alloc::Global;
use std::test::*;
use std::thread::Threads;
use test_kit::{defines_a, library, needs_a};
use wl_base::{Fault, Seq};
use wl_fan::Workers;

/// The call with nothing.
fn called_with_nothing<R: Threads + Sync>(
    rt: &R,
    alloc: Global,
    workers: Workers,
) -> Result<Loaded, RoundError> {
    load_rounds(
        rt,
        alloc,
        Seq::new(alloc),
        &[],
        &[],
        &[],
        Mode::Plain,
        workers,
    )
}

/// How many objects are loaded of nothing.
fn count_of_nothing<R: Threads + Sync>(rt: &R, alloc: Global) -> Option<usize> {
    let workers = Workers::new(2)?;
    let loaded = called_with_nothing(rt, alloc, workers).ok()?;
    Some(loaded.objects().len())
}

/// Nothing is loaded where nothing is given.
#[test]
fn nothing_is_loaded(rt: HostRuntime) {
    assert!(rt; count_of_nothing(&rt, rt.alloc()) == Some(0));
}

/// An object that refers to `a`, by a WEAK reference.
fn may_use_a() -> &'static [u8] {
    b"\0asm\x01\0\0\0\0\x10\x07linking\x02\x08\x05\x01\x01\x11\x01a".as_slice()
}

/// An object that defines `c`.
fn defines_c() -> &'static [u8] {
    b"\0asm\x01\0\0\0\x01\x04\x01`\0\0\x03\x02\x01\0\n\x04\x01\x02\0\x0b\0\x11\x07linking\x02\x08\x06\x01\0\0\0\x01c".as_slice()
}

/// The members of the library, and an index that gives the second for `a` too.
fn lying_library() -> &'static [u8] {
    b"!<arch>\n/                                               16        `\n\0\0\0\x02\0\0\0\xc0\0\0\0\xc0a\0b\0m/                                              47        `\n\0asm\x01\0\0\0\x01\x04\x01`\0\0\x03\x02\x01\0\n\x04\x01\x02\0\x0b\0\x15\x07linking\x02\x08\n\x02\0\0\0\x01a\x01\x10\x01b\nm/                                              47        `\n\0asm\x01\0\0\0\x01\x04\x01`\0\0\x03\x02\x01\0\n\x04\x01\x02\0\x0b\0\x15\x07linking\x02\x08\n\x02\0\0\0\x01b\x01\x10\x01a\n".as_slice()
}

/// What a call answers, as far as the cases tell.
#[derive(Clone, Copy, PartialEq, Eq)]
enum Outcome {
    /// The first inputs that are loaded, in order.
    Loaded([Option<u32>; 4]),
    /// The input that the index gives for a name that it doesn't define, and whether that is `a`.
    IndexLies(u32, bool),
    Other,
}

/// Puts an object behind the others.
fn add_object(
    alloc: Global,
    to: &mut Seq<GivenObject>,
    input: u32,
    bytes: &[u8],
    lazy: bool,
) -> Option<()> {
    let object = read_object(alloc, input, bytes).ok()?;
    let given = GivenObject::of(alloc, object, lazy).ok()?;
    to.push(given).ok()
}

/// Puts objects as inputs 1 and 2 behind the others, the second a lazy one.
fn add_objects(alloc: Global, to: &mut Seq<GivenObject>, plain: &[u8], lazy: &[u8]) -> Option<()> {
    add_object(alloc, to, 1, plain, false)?;
    add_object(alloc, to, 2, lazy, true)
}

/// Whether the objects are the inputs from 1 on.
fn are_numbered(given: &[GivenObject]) -> bool
    ensures { IsTrue result → (k : ℕ) (g : GivenObject) → slice_get given.now k ≡ Some g → g.object.input ≡ k + 1 }
{
    let mut last = 0;
    for one in given {
        let input = one.object().input;
        if input <= last || input - last > 1 {
            return false;
        }
        last = input;
    }
    true
}

/// The library that the file is, by need, with its members as the inputs from 3 on.
fn read_library(alloc: Global, file: &[u8]) -> Option<LibraryFile>
    ensures { IfSome result (λ l. IsRead (file.now ∷ []) l) }
{
    if file.len() >= 1 << 32 {
        return None;
    }
    let library = read_index(alloc, file).ok()?;
    Some(LibraryFile {
        file: 0,
        first: 3,
        whole: false,
        library,
    })
}

/// The input of the object at this place.
fn input_at(loaded: &Loaded, at: usize) -> Option<u32> {
    Some(loaded.objects().get(at)?.input)
}

/// What is loaded.
fn inputs_of(loaded: &Loaded) -> Outcome {
    Outcome::Loaded([
        input_at(loaded, 0),
        input_at(loaded, 1),
        input_at(loaded, 2),
        input_at(loaded, 3),
    ])
}

/// What an error says.
fn outcome_of(error: &RoundError) -> Outcome {
    match error {
        RoundError::Refused(Fault::IndexLies { input, name }) => {
            Outcome::IndexLies(*input, name.as_slice() == b"a".as_slice())
        }
        _ => Outcome::Other,
    }
}

/// What the call answers.
fn told(answer: &Result<Loaded, RoundError>) -> Outcome {
    match answer {
        Ok(loaded) => inputs_of(loaded),
        Err(error) => outcome_of(error),
    }
}

/// What the call with these objects and one library answers.
fn called<R: Threads + Sync>(
    rt: &R,
    alloc: Global,
    given: Seq<GivenObject>,
    library: LibraryFile,
    file: Seq<u8>,
    workers: Workers,
) -> Outcome
    requires numbered { (k : ℕ) (g : GivenObject) → slice_get given k ≡ Some g → g.object.input ≡ k + 1 }
    requires first { library.first ≡ length given + 1 }
    requires few { length given + length library.library.members < 2 ^ 20 }
    requires read { IsRead (file ∷ []) library }
{
    let libraries = [library];
    let files = [file];
    let answer = load_rounds(
        rt,
        alloc,
        given,
        &libraries,
        &files,
        &[],
        Mode::Plain,
        workers,
    );
    told(&answer)
}

/// Whether these are two objects as inputs 1 and 2, and a library of at most two members behind them.
fn fit(given: &[GivenObject], library: &LibraryFile) -> bool
    ensures numbered { IsTrue result → (k : ℕ) (g : GivenObject) → slice_get given.now k ≡ Some g → g.object.input ≡ k + 1 }
    ensures first { IsTrue result → library.now.first ≡ length given.now + 1 }
    ensures few { IsTrue result → length given.now + length library.now.library.members < 2 ^ 20 }
{
    given.len() == 2 && library.library.count() <= 2 && library.first == 3 && are_numbered(given)
}

/// What is loaded of these objects and the library that the bytes are.
fn loaded_with<R: Threads + Sync>(
    rt: &R,
    alloc: Global,
    workers: Workers,
    given: Seq<GivenObject>,
    library: &[u8],
) -> Option<Outcome> {
    let file = Seq::from_slice(alloc, library).ok()?;
    let library = read_library(alloc, file.as_slice())?;
    if !fit(given.as_slice(), &library) {
        return None;
    }
    Some(called(rt, alloc, given, library, file, workers))
}

/// What is loaded of these objects and this library, by so many workers.
fn what_is_loaded<R: Threads + Sync>(
    rt: &R,
    alloc: Global,
    workers: u32,
    plain: &[u8],
    lazy: &[u8],
    library: &[u8],
) -> Option<Outcome> {
    let workers = Workers::new(workers)?;
    let mut given = Seq::new(alloc);
    add_objects(alloc, &mut given, plain, lazy)?;
    loaded_with(rt, alloc, workers, given, library)
}

/// A plain object, a lazy one, a library, and what is loaded of them.
type Case = (&'static [u8], &'static [u8], &'static [u8], Outcome);

/// Whether each case loads so, whoever reads ahead.
fn are_loaded<R: Threads + Sync>(rt: &R, alloc: Global, cases: &[Case]) -> bool {
    for (plain, lazy, library, outcome) in cases {
        for workers in [1, 2, 64] {
            if what_is_loaded(rt, alloc, workers, plain, lazy, library) != Some(*outcome) {
                return false;
            }
        }
    }
    true
}

fn cases() -> [Case; 4] {
    let members = Outcome::Loaded([Some(1), Some(3), Some(4), None]);
    let none_more = Outcome::Loaded([Some(1), None, None, None]);
    let lazy_one = Outcome::Loaded([Some(1), Some(2), Some(4), None]);
    let lies = Outcome::IndexLies(4, true);
    [
        // both members, and not the lazy object
        (needs_a(), defines_c(), library(), members),
        // a WEAK reference loads nothing
        (may_use_a(), defines_c(), library(), none_more),
        // the lazy object is the least that defines `a`, and needs `b`
        (needs_a(), defines_a(), library(), lazy_one),
        // the index gives `a` for a member that doesn't define it
        (needs_a(), defines_c(), lying_library(), lies),
    ]
}

#[test]
fn what_is_needed_is_loaded(rt: HostRuntime) {
    assert!(rt; are_loaded(&rt, rt.alloc(), &cases()));
}
