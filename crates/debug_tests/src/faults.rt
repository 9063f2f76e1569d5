//! Links that are refused: sections whose relocations are broken, and outputs that are too long.

use crate::links::{Link, debug_x, fixed, front, gives, is_refused, link_of, symbols};
use std::alloc::Global;
use std::thread::Threads;
use wl_base::Fault;

/// Whether section 3 of the first object is at fault, where these sections stand behind the symbols.
fn is_bad<R: Threads + Sync>(rt: &R, alloc: Global, relocs: &[u8]) -> bool {
    let object = [front(), debug_x(), symbols(), &relocs[..]];
    let objects = [object.as_slice()];
    is_refused(rt, alloc, link_of(&objects, &[]), &bad(1, 3))
}

fn are_bad<R: Threads + Sync>(rt: &R, alloc: Global, cases: &[&[u8]]) -> bool {
    for relocs in cases {
        if !is_bad(rt, alloc, relocs) {
            return false;
        }
    }
    true
}

fn entries_at_fault<R: Threads + Sync>(rt: &R, alloc: Global) -> bool {
    are_bad(
        rt,
        alloc,
        &[
            // type 0
            b"\0\x14\x0ereloc..debug_x\x03\x01\0\0\0".as_slice(),
            // one byte past the end
            b"\0\x15\x0ereloc..debug_x\x03\x01\x08\x05\0\0".as_slice(),
            // windows that share a byte, and windows that fall
            b"\0\x19\x0ereloc..debug_x\x03\x02\x08\0\0\0\x08\x03\x01\0".as_slice(),
            b"\0\x19\x0ereloc..debug_x\x03\x02\x08\x04\0\0\x08\0\x01\0".as_slice(),
            // a symbol that isn't there, and one of another kind
            b"\0\x15\x0ereloc..debug_x\x03\x01\x08\0\x03\0".as_slice(),
            b"\0\x15\x0ereloc..debug_x\x03\x01\x08\0\x02\0".as_slice(),
            // a byte left over, and an entry that is cut
            b"\0\x12\x0ereloc..debug_x\x03\0\0".as_slice(),
            b"\0\x12\x0ereloc..debug_x\x03\x01\x08".as_slice(),
        ],
    )
}

fn bad(input: u32, section: u32) -> Fault {
    Fault::BadDebug { input, section }
}

/// Whether a link of two objects is refused by this fault.
fn two_are_bad<'a, R: Threads + Sync>(
    rt: &R,
    alloc: Global,
    first: &'a [&'a [u8]],
    second: &'a [&'a [u8]],
    wanted: &Fault,
) -> bool {
    let objects = [&first[..], &second[..]];
    is_refused(rt, alloc, link_of(&objects, &[]), wanted)
}

/// Of two sections at fault the one that comes first in the file, and of two objects the first.
fn first_of_two<R: Threads + Sync>(rt: &R, alloc: Global) -> bool {
    let debug_y = b"\0\x09\x08.debug_y".as_slice();
    let bad_y = b"\0\x15\x0ereloc..debug_y\x04\x01\x08\0\0\0".as_slice();
    let bad_x = b"\0\x14\x0ereloc..debug_x\x03\x01\0\0\0".as_slice();
    let one = [front(), debug_x(), debug_y, symbols(), bad_y];
    let both = [front(), debug_x(), debug_y, symbols(), bad_y, bad_x];
    let sound = [front(), debug_x(), symbols()];
    two_are_bad(rt, alloc, one.as_slice(), both.as_slice(), &bad(1, 4))
        && two_are_bad(rt, alloc, sound.as_slice(), both.as_slice(), &bad(2, 3))
}

/// A place in a section that is no debug section.
fn other_section<R: Threads + Sync>(rt: &R, alloc: Global) -> bool {
    let other = fixed(b"\0\x06\x05other".as_slice());
    let relocs = fixed(b"\0\x15\x0ereloc..debug_x\x04\x01\x09\0\x02\0".as_slice());
    let object = [front(), other, debug_x(), symbols(), relocs];
    let objects = [object.as_slice()];
    is_refused(rt, alloc, link_of(&objects, &[]), &bad(1, 4))
}

/// Two sections that hold relocations for one, of which the second isn't there when the object is
/// read: no object has two.
fn second_relocs<R: Threads + Sync>(rt: &R, alloc: Global) -> bool {
    let relocs = fixed(b"\0\x11\x0ereloc..debug_x\x03\0".as_slice());
    let object = [front(), debug_x(), symbols(), relocs, relocs];
    let objects = [object.as_slice()];
    let second = Link {
        unread: relocs.len(),
        ..link_of(&objects, &[])
    };
    is_refused(rt, alloc, second, &bad(1, 3))
}

#[test]
fn faults_are_found(rt: HostRuntime) {
    let alloc = rt.alloc();
    assert!(rt; entries_at_fault(&rt, alloc));
    assert!(rt; second_relocs(&rt, alloc));
    assert!(rt; first_of_two(&rt, alloc));
    assert!(rt; other_section(&rt, alloc));
}

/// A link of these objects behind an output of so many bytes.
fn behind<'a>(objects: &'a [&'a [&'a [u8]]], length: u64) -> Link<'a> {
    Link {
        length,
        ..link_of(objects, &[])
    }
}

/// Whether these bytes come behind an output of so many.
fn fits<R: Threads + Sync>(
    rt: &R,
    alloc: Global,
    object: &[&[u8]],
    length: u64,
    wanted: &[u8],
) -> bool {
    let objects = [&object[..]];
    gives(rt, alloc, behind(&objects, length), wanted)
}

/// Whether the link behind an output of so many bytes is refused by this fault.
fn fails<R: Threads + Sync>(
    rt: &R,
    alloc: Global,
    object: &[&[u8]],
    length: u64,
    wanted: &Fault,
) -> bool {
    let objects = [&object[..]];
    is_refused(rt, alloc, behind(&objects, length), wanted)
}

/// An output of 2^31 - 20 bytes has room for 19 more, one of 2^31 - 19 has not; a fault of a section
/// comes first.
fn lengths<R: Threads + Sync>(rt: &R, alloc: Global) -> bool {
    let bad_x = b"\0\x14\x0ereloc..debug_x\x03\x01\0\0\0".as_slice();
    let sound = [front(), debug_x(), symbols()];
    let broken = [front(), debug_x(), symbols(), bad_x];
    let whole = b"\0\x11\x08.debug_x\0\0\0\0\0\0\0\0".as_slice();
    let too_long = Fault::DebugTooLong {
        needed: 0x8000_0000,
    };
    fits(rt, alloc, sound.as_slice(), 0x7fff_ffec, whole)
        && fails(rt, alloc, sound.as_slice(), 0x7fff_ffed, &too_long)
        && fails(rt, alloc, broken.as_slice(), 0x7fff_ffed, &bad(1, 3))
}

#[test]
fn lengths_are_judged(rt: HostRuntime) {
    assert!(rt; lengths(&rt, rt.alloc()));
}
