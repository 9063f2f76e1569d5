//! Contributions of more bytes than one worker is given: several parts are written at once.

use crate::links::{front, gives, link_of, parts_of, symbols};
use std::alloc::Global;
use std::thread::Threads;
use wl_base::{OutOfMemory, Seq};

/// What stands before the content of a section `.debug_x` of 100,000 bytes.
fn head<'a>() -> &'a [u8] {
    b"\0\xa9\x8d\x06\x08.debug_x".as_slice()
}

/// The place of section 3 with an addend of 2, in the first and the last word of section 3.
fn first_relocs<'a>() -> &'a [u8] {
    b"\0\x1b\x0ereloc..debug_x\x03\x02\x09\0\x02\x02\x09\x9c\x8d\x06\x02\x02".as_slice()
}

/// The same in section 5.
fn last_relocs<'a>() -> &'a [u8] {
    b"\0\x1b\x0ereloc..debug_x\x05\x02\x09\0\x02\x02\x09\x9c\x8d\x06\x02\x02".as_slice()
}

/// Two objects of three sections each, of which the first and the last have a word at either end.
/// The sections of the second object begin at 300,000.
fn two_objects<R: Threads + Sync>(rt: &R, alloc: Global, all: &[u8], inner: &[u8]) -> bool {
    let object = [
        front(),
        head(),
        all,
        head(),
        all,
        head(),
        all,
        symbols(),
        first_relocs(),
        last_relocs(),
    ];
    let objects = [object.as_slice(), object.as_slice()];
    let one = b"\x02\0\0\0".as_slice();
    let two = b"\xe2\x93\x04\0".as_slice();
    let wanted = [
        b"\0\xc9\xcf\x24\x08.debug_x".as_slice(),
        one,
        inner,
        one,
        all,
        one,
        inner,
        one,
        two,
        inner,
        two,
        all,
        two,
        inner,
        two,
    ];
    match parts_of(alloc, &wanted) {
        Ok(wanted) => gives(rt, alloc, link_of(&objects, &[]), wanted.as_slice()),
        Err(_) => false,
    }
}

/// So many bytes.
fn filled(alloc: Global, len: usize) -> Result<Seq<u8>, OutOfMemory> {
    Ok(Seq::from_vec(vec![in alloc; 0x21; len]?))
}

fn large<R: Threads + Sync>(rt: &R, alloc: Global) -> Result<bool, OutOfMemory> {
    let all = filled(alloc, 100_000)?;
    let inner = filled(alloc, 99_992)?;
    let holds = two_objects(rt, alloc, all.as_slice(), inner.as_slice());
    Ok(holds)
}

#[test]
fn parts_are_the_whole(rt: HostRuntime) {
    let holds = large(&rt, rt.alloc()) == Ok(true);
    assert!(rt; holds);
}
