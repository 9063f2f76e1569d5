//! Runs over what stands in memory, each through the bound that the program knows.

use std::alloc::Global;
use std::test::Fail;
use test_kit::{file, roomy_shelf, shelf_of};
use wl_base::{OutOfMemory, Seq};
use wl_outside::{
    Failed, Gate, Held, LoadFault, MemShelf, MemSink, NeverFails, OpenGate, Phase, Shelf, Sink,
    names_differ,
};

fn load<F: Shelf>(alloc: Global, shelf: &mut F, name: &str) -> Result<Seq<u8>, LoadFault> {
    shelf.load(alloc, name)
}

fn save<F: Shelf>(shelf: &mut F, name: &str, bytes: &[u8]) -> Result<(), Failed> {
    shelf.save(name, bytes)
}

fn write<E: Sink>(sink: &mut E, bytes: &[u8]) -> Result<(), Failed> {
    sink.write(bytes)
}

fn turn<G: Gate>(gate: &G, phase: Phase) {
    gate.turn(phase, 1, 2);
}

fn two_files(alloc: Global) -> Result<Seq<Held>, OutOfMemory> {
    let mut files = Seq::new(alloc);
    files.push(file(alloc, "a.o", &[1, 2])?)?;
    files.push(file(alloc, "b.o", &[])?)?;
    Ok(files)
}

/// Whether a load of the name gives these bytes.
fn loads<F: Shelf>(alloc: Global, shelf: &mut F, name: &str, bytes: &[u8]) -> bool {
    match load(alloc, shelf, name) {
        Ok(found) => found.as_slice() == bytes,
        Err(_) => false,
    }
}

/// Whether a load of the name fails, and not for want of memory.
fn holds_nothing<F: Shelf>(alloc: Global, shelf: &mut F, name: &str) -> bool {
    load(alloc, shelf, name).err() == Some(LoadFault::Failed)
}

/// Whether the bytes are saved under the name, and then loaded.
fn keeps<F: Shelf>(alloc: Global, shelf: &mut F, name: &str, bytes: &[u8]) -> bool {
    save(shelf, name, bytes).is_ok() && loads(alloc, shelf, name, bytes)
}

/// Whether the names of two files differ, those of these and one more, and those of no file.
fn differences(alloc: Global) -> Result<[bool; 3], OutOfMemory> {
    let mut files = two_files(alloc)?;
    let of_two = names_differ(files.as_slice());
    files.push(file(alloc, "a.o", &[9])?)?;
    let of_three = names_differ(files.as_slice());
    let of_none = names_differ(Seq::<Held>::new(alloc).as_slice());
    Ok([of_two, of_three, of_none])
}

#[test]
fn names_are_compared(rt: HostRuntime) -> Result<(), Fail> {
    assert_eq!(rt; differences(rt.alloc())?, [true, false, true]);
    Ok(())
}

/// The two files on a shelf of which the listed calls fail.
fn failing_shelf(alloc: Global, failing: &[u32]) -> Option<MemShelf> {
    let files = two_files(alloc).ok()?;
    shelf_of(alloc, files, failing).ok()
}

fn begins_with_two_files(alloc: Global, shelf: &mut MemShelf) -> bool {
    loads(alloc, shelf, "a.o", &[1, 2])
        && loads(alloc, shelf, "b.o", &[])
        && holds_nothing(alloc, shelf, "c.o")
        && shelf.held("c.o").is_none()
}

fn replaces(alloc: Global, shelf: &mut MemShelf) -> bool {
    for bytes in [[7u8, 8].as_slice(), &[9], &[]] {
        if !keeps(alloc, shelf, "out", bytes) || shelf.held("out") != Some(bytes) {
            return false;
        }
    }
    keeps(alloc, shelf, "a.o", &[5, 6, 7]) && shelf.held("b.o") == Some([].as_slice())
}

#[test]
fn a_shelf_in_memory_holds_and_replaces(rt: HostRuntime) -> Result<(), Fail> {
    let alloc = rt.alloc();
    let mut shelf = failing_shelf(alloc, &[]).ok_or("no shelf")?;
    assert!(rt; begins_with_two_files(alloc, &mut shelf));
    assert!(rt; replaces(alloc, &mut shelf));
    Ok(())
}

/// Which of a load, a save, a load and a save succeed where the call of this number is listed, and
/// whether the shelf then holds this byte as its output, and the input as it was.
fn calls(alloc: Global, failing: u32, last: u8) -> Option<([bool; 4], bool)> {
    let mut shelf = failing_shelf(alloc, &[failing, 9])?;
    let answers = [
        load(alloc, &mut shelf, "a.o").is_ok(),
        save(&mut shelf, "out", &[3]).is_ok(),
        load(alloc, &mut shelf, "a.o").is_ok(),
        save(&mut shelf, "out", &[4]).is_ok(),
    ];
    let is_saved = shelf.held("out") == Some([last].as_slice());
    let is_kept = shelf.held("a.o") == Some([1, 2].as_slice());
    Some((answers, is_saved && is_kept))
}

#[test]
fn the_listed_calls_of_a_shelf_fail(rt: HostRuntime) {
    for (failing, answers, last) in [
        (0, [true, true, true, true], 4),
        (1, [false, true, true, true], 4),
        (2, [true, false, true, true], 4),
        (3, [true, true, false, true], 4),
        (4, [true, true, true, false], 3),
    ] {
        let found = calls(rt.alloc(), failing, last);
        assert!(rt; found == Some((answers, true)), "call {failing}");
    }
}

/// The two files on a shelf that has room for an output.
fn two_with_room(alloc: Global, output: &str, room: u32) -> Option<NeverFails> {
    let files = two_files(alloc).ok()?;
    roomy_shelf(alloc, files, output, room).ok()
}

fn begins_without_output(alloc: Global, shelf: &mut NeverFails) -> bool {
    loads(alloc, shelf, "a.o", &[1, 2])
        && holds_nothing(alloc, shelf, "out")
        && save(shelf, "out", &[1, 2, 3, 4]).is_err()
        && shelf.held("out").is_none()
}

fn has_room_for_three(alloc: Global, shelf: &mut NeverFails) -> bool {
    for bytes in [[7u8, 8, 9].as_slice(), &[5], &[]] {
        let is_kept = keeps(alloc, shelf, "out", bytes);
        let is_full = save(shelf, "out", &[1, 2, 3, 4]).is_err();
        if !is_kept || !is_full || shelf.held("out") != Some(bytes) {
            return false;
        }
    }
    save(shelf, "a.o", &[5]).is_err() && shelf.held("a.o") == Some([1, 2].as_slice())
}

#[test]
fn a_shelf_with_room_fails_beyond_it_alone(rt: HostRuntime) -> Result<(), Fail> {
    let alloc = rt.alloc();
    let mut shelf = two_with_room(alloc, "out", 3).ok_or("no shelf")?;
    assert!(rt; begins_without_output(alloc, &mut shelf));
    assert!(rt; has_room_for_three(alloc, &mut shelf));
    Ok(())
}

fn stands_under_an_input(alloc: Global, shelf: &mut NeverFails) -> bool {
    save(shelf, "a.o", &[8, 9]).is_err()
        && loads(alloc, shelf, "a.o", &[1, 2])
        && keeps(alloc, shelf, "a.o", &[8])
}

#[test]
fn an_output_may_stand_under_an_input(rt: HostRuntime) -> Result<(), Fail> {
    let alloc = rt.alloc();
    let mut shelf = two_with_room(alloc, "a.o", 1).ok_or("no shelf")?;
    assert!(rt; stands_under_an_input(alloc, &mut shelf));
    Ok(())
}

/// Which of five writes succeed to a sink of which two are listed, and whether it is empty before them
/// and holds the others' bytes behind them.
fn writes(alloc: Global) -> Result<([bool; 5], bool), OutOfMemory> {
    let mut sink = MemSink::new(alloc, Seq::from_slice(alloc, &[2, 4])?);
    let is_empty = sink.bytes() == [].as_slice();
    let answers = [
        write(&mut sink, b"one").is_ok(),
        write(&mut sink, b"two").is_ok(),
        write(&mut sink, b"").is_ok(),
        write(&mut sink, b"four").is_ok(),
        write(&mut sink, b"five").is_ok(),
    ];
    let is_kept = sink.bytes() == b"onefive".as_slice();
    Ok((answers, is_empty && is_kept))
}

#[test]
fn the_listed_calls_of_a_sink_fail(rt: HostRuntime) -> Result<(), Fail> {
    let (answers, holds) = writes(rt.alloc())?;
    assert_eq!(rt; answers, [true, false, true, false, true]);
    assert!(rt; holds);
    Ok(())
}

#[test]
fn an_open_gate_lets_all_pass(rt: HostRuntime) {
    for phase in [
        Phase::Read,
        Phase::Groups,
        Phase::Names,
        Phase::Mark,
        Phase::Fill,
    ] {
        turn(&OpenGate, phase);
    }
    assert!(rt; OpenGate == OpenGate);
}
