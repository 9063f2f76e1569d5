//! Whether trees are written as bytes that are wanted.

use crate::rows::{Owned, Rows, owned_of, rows_of};
use link_program::Named;
use object_file::{Object, read_object};
use partial_bytes::{Numbers, Tree, lie_in, measure, written};
use std::alloc::Global;
use std::thread::Threads;
use wl_base::{OutOfMemory, Seq, Span};
use wl_fan::Workers;

/// Whether so many workers write these bytes.
fn is_written_by<R: Threads + Sync>(
    rt: &R,
    alloc: Global,
    tree: &Tree<'_>,
    workers: u32,
    wanted: &[u8],
) -> bool {
    if !lie_in(tree) {
        return false;
    }
    let Some(workers) = Workers::new(workers) else {
        return false;
    };
    let Ok(m) = measure(rt, alloc, tree, workers) else {
        return false;
    };
    match written(rt, alloc, tree, &m, workers) {
        Ok(bytes) => m.len == wanted.len() as u64 && bytes.as_slice() == wanted,
        Err(_) => false,
    }
}

/// Whether these bytes are written, whoever writes them.
pub fn is_written<R: Threads + Sync>(
    rt: &R,
    alloc: Global,
    tree: &Tree<'_>,
    wanted: &[u8],
) -> bool {
    for workers in [1u32, 2, 64] {
        if !is_written_by(rt, alloc, tree, workers, wanted) {
            return false;
        }
    }
    true
}

fn tree_of<'a>(object: &'a Object, owned: &'a Owned, rows: &'a Rows<'a>) -> Tree<'a> {
    Tree {
        types: owned.types.as_slice(),
        imports: owned.imports.as_slice(),
        functions: owned.functions.as_slice(),
        globals: rows.globals.as_slice(),
        exports: owned.exports.as_slice(),
        bodies: rows.bodies.as_slice(),
        segments: rows.segments.as_slice(),
        infos: rows.infos.as_slice(),
        symbols: rows.symbols.as_slice(),
        inits: object.inits.as_slice(),
        groups: rows.groups.as_slice(),
    }
}

// ---- what stands in windows doesn't matter

fn window_size(kind: u8) -> usize {
    if kind == 2 || kind == 5 { 4 } else { 5 }
}

/// Where a window stands in its part, and how many bytes it has.
fn window_of(named: Named) -> (usize, usize) {
    match named {
        Named::Symbol { kind, place, .. } => (place as usize, window_size(kind)),
        Named::Type { place, .. } => (place as usize, 5),
    }
}

/// Writes something into the windows of a part.
fn spoil(bytes: &mut [u8], span: Span, named: &[Named]) {
    for x in named {
        let window = window_of(*x);
        let at = (span.start as usize).wrapping_add(window.0);
        let end = at.wrapping_add(window.1);
        if let Some(window) = bytes.get_mut(at..end) {
            window.fill(0xee);
        }
    }
}

fn spoil_bodies(bytes: &mut [u8], object: &Object, owned: &Owned) {
    for at in 0..object.functions.len() {
        if let Some(function) = object.functions.get(at) {
            spoil(bytes, function.span, owned.bodies.row(at));
        }
    }
}

fn spoil_segments(bytes: &mut [u8], object: &Object, owned: &Owned) {
    for at in 0..object.segments.len() {
        if let Some(segment) = object.segments.get(at) {
            spoil(bytes, segment.span, owned.segments.row(at));
        }
    }
}

/// The bytes with something in all windows.
fn spoiled(
    alloc: Global,
    made: &[u8],
    object: &Object,
    owned: &Owned,
) -> Result<Seq<u8>, OutOfMemory> {
    let mut bytes = Seq::from_slice(alloc, made)?.into_vec();
    spoil_bodies(bytes.as_mut_slice(), object, owned);
    spoil_segments(bytes.as_mut_slice(), object, owned);
    Ok(Seq::from_vec(bytes))
}

// ---- an object is written as it was read

fn rows_are_written<R: Threads + Sync>(
    rt: &R,
    alloc: Global,
    object: &Object,
    owned: &Owned,
    rows: &Rows<'_>,
    made: &[u8],
) -> bool {
    let tree = tree_of(object, owned, rows);
    is_written(rt, alloc, &tree, made)
}

fn bytes_are_written<'a, R: Threads + Sync>(
    rt: &R,
    alloc: Global,
    object: &'a Object,
    owned: &'a Owned,
    bytes: &'a [u8],
    made: &[u8],
) -> bool {
    let numbers = Numbers {
        symbols: owned.numbers.as_slice(),
        types: owned.numbers.as_slice(),
    };
    let read = rows_of(alloc, object, bytes, owned, &numbers);
    match read {
        Ok(rows) => rows_are_written(rt, alloc, object, owned, &rows, made),
        Err(_) => false,
    }
}

fn object_is_written<R: Threads + Sync>(
    rt: &R,
    alloc: Global,
    object: &Object,
    owned: &Owned,
    made: &[u8],
) -> bool {
    match spoiled(alloc, made, object, owned) {
        Ok(bytes) => bytes_are_written(rt, alloc, object, owned, bytes.as_slice(), made),
        Err(_) => false,
    }
}

fn read_is_written<R: Threads + Sync>(rt: &R, alloc: Global, object: &Object, made: &[u8]) -> bool {
    match owned_of(alloc, object) {
        Ok(owned) => object_is_written(rt, alloc, object, &owned, made),
        Err(_) => false,
    }
}

/// Whether an object that is read, and whose windows are filled, is written as it was.
pub fn is_written_again<R: Threads + Sync>(rt: &R, alloc: Global, made: &[u8]) -> bool {
    match read_object(alloc, 1, made) {
        Ok(object) => read_is_written(rt, alloc, &object, made),
        Err(_) => false,
    }
}
