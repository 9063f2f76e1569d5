//! What stands in the joined sections, byte for byte.

use crate::links::{Link, debug_x, fixed, front, gives, link_of, symbols};
use std::alloc::Global;
use std::thread::Threads;
use test_kit::calling_object;

/// Relocations for section 3: the place of `f` with an addend of 1 at 0, that of `g` at 4.
fn two_offsets() -> &'static [u8] {
    b"\0\x19\x0ereloc..debug_x\x03\x02\x08\0\0\x01\x08\x04\x01\0".as_slice()
}

/// The same for section 5, which is `.debug_x` behind the sections of the calling object.
fn two_offsets_behind() -> &'static [u8] {
    b"\0\x19\x0ereloc..debug_x\x05\x02\x08\0\0\x01\x08\x04\x01\0".as_slice()
}

/// The object that the first worked link links, with a debug section.
fn offsets_of_a_call<R: Threads + Sync>(rt: &R, alloc: Global) -> bool {
    let object = [calling_object(), debug_x(), two_offsets_behind()];
    let objects = [object.as_slice()];
    let bodies = [Some(2), Some(11)];
    gives(
        rt,
        alloc,
        link_of(&objects, &bodies),
        b"\0\x11\x08.debug_x\x03\0\0\0\x0b\0\0\0".as_slice(),
    )
}

fn dead_offset<R: Threads + Sync>(rt: &R, alloc: Global) -> bool {
    let object = [front(), debug_x(), symbols(), two_offsets()];
    let objects = [object.as_slice()];
    let bodies = [Some(2), None];
    gives(
        rt,
        alloc,
        link_of(&objects, &bodies),
        b"\0\x11\x08.debug_x\x03\0\0\0\xff\xff\xff\xff".as_slice(),
    )
}

/// What isn't in the lists of places is dead too.
fn missing_places<R: Threads + Sync>(rt: &R, alloc: Global) -> bool {
    let object = [front(), debug_x(), symbols(), two_offsets()];
    let objects = [object.as_slice()];
    gives(
        rt,
        alloc,
        link_of(&objects, &[]),
        b"\0\x11\x08.debug_x\xff\xff\xff\xff\xff\xff\xff\xff".as_slice(),
    )
}

fn dead_range<R: Threads + Sync>(rt: &R, alloc: Global) -> bool {
    let object = [
        front(),
        fixed(b"\0\x12\x0d.debug_ranges\0\0\0\0".as_slice()),
        symbols(),
        fixed(b"\0\x1a\x13reloc..debug_ranges\x03\x01\x08\0\x01\x05".as_slice()),
    ];
    let objects = [object.as_slice()];
    let bodies = [Some(2), None];
    gives(
        rt,
        alloc,
        link_of(&objects, &bodies),
        b"\0\x12\x0d.debug_ranges\xfe\xff\xff\xff".as_slice(),
    )
}

#[test]
fn offsets_are_written(rt: HostRuntime) {
    let alloc = rt.alloc();
    assert!(rt; offsets_of_a_call(&rt, alloc));
    assert!(rt; dead_offset(&rt, alloc));
    assert!(rt; missing_places(&rt, alloc));
    assert!(rt; dead_range(&rt, alloc));
}

/// Two objects with sections of one name, and objects that begin in the middle of their files: the
/// place of the section itself with an addend of 2, and the place of `f` less 3.
fn two_objects<R: Threads + Sync>(rt: &R, alloc: Global, before: usize) -> bool {
    let relocs = fixed(b"\0\x19\x0ereloc..debug_x\x03\x02\x09\0\x02\x02\x08\x04\0\x7d".as_slice());
    let object = [front(), debug_x(), symbols(), relocs];
    let objects = [object.as_slice(), object.as_slice()];
    let bodies = [Some(2)];
    let two = Link {
        before,
        ..link_of(&objects, &bodies)
    };
    gives(
        rt,
        alloc,
        two,
        b"\0\x19\x08.debug_x\x02\0\0\0\xff\xff\xff\xff\x0a\0\0\0\xff\xff\xff\xff".as_slice(),
    )
}

/// Names in the order in which they come, each with all its contributions; other sections go.
fn names_in_turn<R: Threads + Sync>(rt: &R, alloc: Global) -> bool {
    let object = [
        front(),
        fixed(b"\0\x0a\x08.debug_x\x01\0\x06\x05other\0\x0a\x08.debug_a\x02".as_slice()),
        fixed(b"\0\x0a\x08.debug_x\x03\0\x0b\x09.debugger\x04".as_slice()),
        symbols(),
    ];
    let objects = [object.as_slice()];
    gives(
        rt,
        alloc,
        link_of(&objects, &[]),
        b"\0\x0b\x08.debug_x\x01\x03\0\x0a\x08.debug_a\x02".as_slice(),
    )
}

fn empty_section<R: Threads + Sync>(rt: &R, alloc: Global) -> bool {
    let object = [front(), fixed(b"\0\x09\x08.debug_x".as_slice()), symbols()];
    let objects = [object.as_slice()];
    gives(
        rt,
        alloc,
        link_of(&objects, &[]),
        b"\0\x09\x08.debug_x".as_slice(),
    )
}

/// Slots take no addend, and one of them isn't there.
fn slots<R: Threads + Sync>(rt: &R, alloc: Global) -> bool {
    let relocs = fixed(b"\0\x17\x0ereloc..debug_x\x03\x02\x02\0\0\x02\x04\x01".as_slice());
    let object = [front(), debug_x(), symbols(), relocs];
    let objects = [object.as_slice()];
    let others = [Some(1), None];
    let slotted = Link {
        others: &others,
        ..link_of(&objects, &[])
    };
    gives(
        rt,
        alloc,
        slotted,
        b"\0\x11\x08.debug_x\x01\0\0\0\xff\xff\xff\xff".as_slice(),
    )
}

fn nothing<R: Threads + Sync>(rt: &R, alloc: Global) -> bool {
    let object = [front(), fixed(b"".as_slice()), symbols()];
    let objects = [object.as_slice()];
    gives(rt, alloc, link_of(&objects, &[]), &[]) && gives(rt, alloc, link_of(&[], &[]), &[])
}

#[test]
fn sections_are_joined(rt: HostRuntime) {
    let alloc = rt.alloc();
    assert!(rt; two_objects(&rt, alloc, 0));
    assert!(rt; two_objects(&rt, alloc, 7));
    assert!(rt; names_in_turn(&rt, alloc));
    assert!(rt; empty_section(&rt, alloc));
    assert!(rt; slots(&rt, alloc));
    assert!(rt; nothing(&rt, alloc));
}
