//! Bodies of more bytes than one worker is given: several runs are written at once.

use crate::trees::is_written;
use link_program::Named;
use partial_bytes::{Numbers, Part, Tree};
use std::alloc::Global;
use std::thread::Threads;
use test_kit::joined;
use wl_base::{OutOfMemory, Seq};

/// A tree of these bodies alone.
fn tree_of<'a>(bodies: &'a [Part<'a>]) -> Tree<'a> {
    Tree {
        types: &[],
        imports: &[],
        functions: &[],
        globals: &[],
        exports: &[],
        bodies,
        segments: &[],
        infos: &[],
        symbols: &[],
        inits: &[],
        groups: &[],
    }
}

/// So many bytes.
fn filled(alloc: Global, len: usize) -> Result<Seq<u8>, OutOfMemory> {
    Ok(Seq::from_vec(vec![in alloc; 0x3f; len]?))
}

fn window(kind: u8, place: u32, symbol: u32, addend: i32) -> Named {
    Named::Symbol {
        kind,
        place,
        addend,
        symbol,
    }
}

/// Windows at both ends of 300,000 bytes, which name a symbol.
fn ends(symbol: u32) -> [Named; 2] {
    [window(0, 0, symbol, 0), window(4, 299_995, symbol, 7)]
}

/// What is written of three such bodies, in which the windows are empty.
fn wanted(alloc: Global, inner: &[u8]) -> Result<Seq<u8>, OutOfMemory> {
    let empty = b"\x80\x80\x80\x80\0".as_slice();
    let size = b"\xe0\xa7\x12".as_slice();
    let parts = [
        b"\0asm\x01\0\0\0\n\xaa\xf76\x03".as_slice(),
        size,
        empty,
        inner,
        empty,
        size,
        empty,
        inner,
        empty,
        size,
        empty,
        inner,
        empty,
        b"\0\x0c\x07linking\x02\x08\x01\0\0,\nreloc.CODE\0\x06\0\x04\0\x04\xdf\xa7\x12\0\x07\0\xe7\xa7\x12\x01\x04\xc2\xcf$\x01\x07\0\xca\xcf$\x02\x04\xa5\xf76\x02\x07".as_slice(),
    ];
    joined(alloc, &parts)
}

fn part<'a>(bytes: &'a [u8], named: &'a [Named], numbers: &'a Numbers<'a>) -> Part<'a> {
    Part {
        bytes,
        named,
        numbers,
    }
}

fn add_bodies<'a>(
    bodies: &mut Seq<Part<'a>>,
    bytes: &'a [u8],
    numbers: &'a Numbers<'a>,
    first: &'a [Named],
    second: &'a [Named],
    third: &'a [Named],
) -> Result<(), OutOfMemory> {
    bodies.push(part(bytes, first, numbers))?;
    bodies.push(part(bytes, second, numbers))?;
    bodies.push(part(bytes, third, numbers))
}

fn three_are_written<R: Threads + Sync>(
    rt: &R,
    alloc: Global,
    all: &[u8],
    inner: &[u8],
) -> Result<bool, OutOfMemory> {
    let wanted = wanted(alloc, inner)?;
    // The symbols at the places 1, 3 and 4 are those of the numbers 0, 1 and 2 in the object.
    let numbers = Numbers {
        symbols: &[0, 0, 0, 1, 2],
        types: &[],
    };
    let first = ends(1);
    let second = ends(3);
    let third = ends(4);
    let mut bodies = Seq::new(alloc);
    add_bodies(&mut bodies, all, &numbers, &first, &second, &third)?;
    let tree = tree_of(bodies.as_slice());
    let holds = is_written(rt, alloc, &tree, wanted.as_slice());
    Ok(holds)
}

fn large<R: Threads + Sync>(rt: &R, alloc: Global) -> Result<bool, OutOfMemory> {
    let all = filled(alloc, 300_000)?;
    let inner = filled(alloc, 299_990)?;
    three_are_written(rt, alloc, all.as_slice(), inner.as_slice())
}

#[test]
fn runs_are_the_whole(rt: HostRuntime) {
    let holds = large(&rt, rt.alloc()) == Ok(true);
    assert!(rt; holds);
}
