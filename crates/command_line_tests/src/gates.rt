//! The whole command with gates that hold a worker: whoever is late, the bytes are the same.

use crate::runs::{is_held, run};
use std::alloc::Global;
use std::test::Fail;
use std::thread::Threads;
use test_kit::{Hold, file, shelf_of};
use wl_base::{OutOfMemory, Seq};
use wl_outside::{Gate, Held, MemSink, OpenGate, Phase};

// f calls w twice, and w stands in a group; both are weak.
const OBJECT: [u8; 101] = [
    0x00, 0x61, 0x73, 0x6D, 0x01, 0x00, 0x00, 0x00, 0x01, 0x05, 0x01, 0x60, 0x00, 0x01, 0x7F, 0x03,
    0x03, 0x02, 0x00, 0x00, 0x0A, 0x19, 0x02, 0x12, 0x00, 0x10, 0x81, 0x80, 0x80, 0x80, 0x00, 0x10,
    0x81, 0x80, 0x80, 0x80, 0x00, 0x6A, 0x41, 0x00, 0x6A, 0x0B, 0x04, 0x00, 0x41, 0x00, 0x0B, 0x00,
    0x1F, 0x07, 0x6C, 0x69, 0x6E, 0x6B, 0x69, 0x6E, 0x67, 0x02, 0x08, 0x0B, 0x02, 0x00, 0x01, 0x00,
    0x01, 0x66, 0x00, 0x01, 0x01, 0x01, 0x77, 0x07, 0x07, 0x01, 0x01, 0x77, 0x00, 0x01, 0x01, 0x01,
    0x00, 0x13, 0x0A, 0x72, 0x65, 0x6C, 0x6F, 0x63, 0x2E, 0x43, 0x4F, 0x44, 0x45, 0x02, 0x02, 0x00,
    0x04, 0x01, 0x00, 0x0A, 0x01,
];

// The first object's w, and the third one's f.
const MODULE: [u8; 79] = [
    0x00, 0x61, 0x73, 0x6D, 0x01, 0x00, 0x00, 0x00, 0x01, 0x05, 0x01, 0x60, 0x00, 0x01, 0x7F, 0x03,
    0x03, 0x02, 0x00, 0x00, 0x04, 0x05, 0x01, 0x70, 0x01, 0x01, 0x01, 0x05, 0x03, 0x01, 0x00, 0x02,
    0x07, 0x12, 0x03, 0x06, 0x6D, 0x65, 0x6D, 0x6F, 0x72, 0x79, 0x02, 0x00, 0x01, 0x77, 0x00, 0x00,
    0x01, 0x66, 0x00, 0x01, 0x0A, 0x19, 0x02, 0x04, 0x00, 0x41, 0x11, 0x0B, 0x12, 0x00, 0x10, 0x80,
    0x80, 0x80, 0x80, 0x00, 0x10, 0x80, 0x80, 0x80, 0x80, 0x00, 0x6A, 0x41, 0x03, 0x6A, 0x0B,
];

// Four objects, with numbers of their own in f and w. The third one's f is strong.
fn objects(alloc: Global) -> Result<Seq<Held>, OutOfMemory> {
    let mut files = Seq::new(alloc);
    for (name, flags, in_f, in_w) in [
        ("a.o", 1u8, 0x01u8, 0x11u8),
        ("b.o", 1, 0x02, 0x12),
        ("c.o", 0, 0x03, 0x13),
        ("d.o", 1, 0x04, 0x14),
    ] {
        let mut bytes = OBJECT;
        bytes[39] = in_f;
        bytes[45] = in_w;
        bytes[62] = flags;
        files.push(file(alloc, name, &bytes)?)?;
    }
    Ok(files)
}

// Whether the objects give the module.
fn gives<R: Threads + Sync, G: Gate>(
    rt: &R,
    alloc: Global,
    threads: &str,
    gate: &G,
) -> Result<bool, OutOfMemory> {
    let mut shelf = shelf_of(alloc, objects(alloc)?, &[])?;
    let mut say = MemSink::new(alloc, Seq::new(alloc));
    let words = [
        "a.o",
        "b.o",
        "c.o",
        "d.o",
        "-o",
        "out",
        "--no-entry",
        "--export=f",
        "--export=w",
        threads,
    ];
    let status = run(rt, alloc, &words, &mut shelf, &mut say, gate)?;
    Ok(status.code() == 0 && is_held(shelf.held("out"), &MODULE))
}

// The same with a gate that holds a job, which is let go in time.
fn holds<R: Threads + Sync>(
    rt: &R,
    alloc: Global,
    threads: &str,
    case: (Phase, u64, u32, u64),
) -> Result<bool, OutOfMemory> {
    let (phase, after, job, until) = case;
    let gate = Hold::new(phase, after, job, until);
    Ok(gives(rt, alloc, threads, &gate)? && gate.let_go())
}

#[test]
fn whoever_is_late_the_bytes_are_the_same(rt: HostRuntime) -> Result<(), Fail> {
    let alloc = rt.alloc();
    assert!(rt; gives(&rt, alloc, "--threads=1", &OpenGate)?);
    // One worker is held until the other one has come to its last job. The output has two pieces, and then two windows.
    let cases = [
        (Phase::Read, 0u64, 0u32, 3u64),
        (Phase::Read, 0, 2, 3),
        (Phase::Groups, 0, 0, 4),
        (Phase::Groups, 0, 1, 4),
        (Phase::Names, 0, 0, 4),
        (Phase::Names, 0, 1, 4),
        (Phase::Mark, 0, 0, 2),
        (Phase::Mark, 0, 1, 2),
        (Phase::Fill, 0, 0, 2),
        (Phase::Fill, 0, 1, 2),
        (Phase::Fill, 2, 0, 4),
        (Phase::Fill, 2, 1, 4),
    ];
    for threads in ["--threads=2", "--threads=64"] {
        for case in cases {
            assert!(rt; holds(&rt, alloc, threads, case)?, "{case:?}");
        }
    }
    Ok(())
}
