//! Runs of the whole command over shelves and sinks in memory.

use link_command::{Status, link_command};
use std::alloc::Global;
use std::test::Fail;
use std::thread::Threads;
use test_kit::{calling_module, calling_object, file, part_of_cut, roomy_shelf, shelf_of, texts};
use wl_base::{Fault, OutOfMemory, Part, Seq};
use wl_outside::{Gate, Held, MemShelf, MemSink, NeverFails, OpenGate, Shelf, Sink};

// An object without symbols.
const EMPTY: [u8; 22] = [
    0x00, 0x61, 0x73, 0x6D, 0x01, 0x00, 0x00, 0x00, 0x00, 0x0C, 0x07, 0x6C, 0x69, 0x6E, 0x6B, 0x69,
    0x6E, 0x67, 0x02, 0x08, 0x01, 0x00,
];

const WORDS: [&str; 5] = ["a.o", "-o", "out", "--no-entry", "--export=f"];

// A shelf that never fails, of one input.
fn one_input(alloc: Global, bytes: &[u8], room: u32) -> Result<NeverFails, OutOfMemory> {
    let mut files = Seq::new(alloc);
    files.push(file(alloc, "a.o", bytes)?)?;
    roomy_shelf(alloc, files, "out", room)
}

// How a run of a few words ends.
pub(crate) fn run<R: Threads + Sync, F: Shelf, E: Sink, G: Gate>(
    rt: &R,
    alloc: Global,
    words: &[&str],
    shelf: &mut F,
    say: &mut E,
    gate: &G,
) -> Result<Status, OutOfMemory> {
    let words = texts(alloc, words)?;
    if words.len() > 100 {
        return Err(OutOfMemory);
    }
    Ok(link_command(rt, alloc, words.as_slice(), shelf, say, gate))
}

pub(crate) fn is_held(found: Option<&[u8]>, bytes: &[u8]) -> bool {
    match found {
        Some(found) => found == bytes,
        None => false,
    }
}

// Whether the object gives this module, the input stays, and nothing is printed.
fn gives_its_module<R: Threads + Sync>(
    rt: &R,
    alloc: Global,
    object: &[u8],
    module: &[u8],
) -> Result<bool, OutOfMemory> {
    let mut shelf = one_input(alloc, object, 65)?;
    let mut say = MemSink::new(alloc, Seq::new(alloc));
    let status = run(rt, alloc, &WORDS, &mut shelf, &mut say, &OpenGate)?;
    Ok(
        status == Status::Linked
            && is_held(shelf.held("out"), module)
            && is_held(shelf.held("a.o"), object)
            && say.bytes().is_empty(),
    )
}

#[test]
fn an_object_gives_its_module(rt: HostRuntime) -> Result<(), Fail> {
    let alloc = rt.alloc();
    assert!(rt; gives_its_module(&rt, alloc, calling_object(), calling_module())?);
    Ok(())
}

// What clang 14 wrote of `int f(int x) { return x + 1; }`.
const CLANG_OBJECT: &[u8; 151] =
    b"\0asm\x01\0\0\0\x01\x86\x80\x80\x80\0\x01`\x01\x7f\x01\x7f\x02\x98\x80\x80\x80\0\x01\x03env\x0f__linear_memory\x02\0\0\x03\x82\x80\x80\x80\0\x01\0\x0a\x89\x80\x80\x80\0\x01\x07\0 \0A\x01j\x0b\0\x95\x80\x80\x80\0\x07linking\x02\x08\x86\x80\x80\x80\0\x01\0\x04\0\x01f\0\xad\x80\x80\x80\0\x09producers\x01\x0cprocessed-by\x01\x0cDebian clang\x0614.0.6";

// The module that it is linked to: one function, a table of one place and a memory of two pages; it exports the memory and `f`.
const CLANG_MODULE: &[u8; 59] =
    b"\0asm\x01\0\0\0\x01\x06\x01`\x01\x7f\x01\x7f\x03\x02\x01\0\x04\x05\x01\x70\x01\x01\x01\x05\x03\x01\0\x02\x07\x0e\x02\x06memory\x02\0\x01f\0\0\x0a\x09\x01\x07\0 \0A\x01j\x0b";

#[test]
fn the_object_of_a_compiler_gives_its_module(rt: HostRuntime) -> Result<(), Fail> {
    let alloc = rt.alloc();
    let object = CLANG_OBJECT.as_slice();
    let module = CLANG_MODULE.as_slice();
    assert!(rt; gives_its_module(&rt, alloc, object, module)?);
    Ok(())
}

fn three_inputs(alloc: Global) -> Result<Seq<Held>, OutOfMemory> {
    let mut files = Seq::new(alloc);
    files.push(file(alloc, "a.o", calling_object())?)?;
    files.push(file(alloc, "b.o", &EMPTY)?)?;
    files.push(file(alloc, "c.o", &EMPTY)?)?;
    Ok(files)
}

// How a run over the three inputs ends, where the line can't be written.
fn run_of_three<R: Threads + Sync>(
    rt: &R,
    alloc: Global,
    shelf: &mut MemShelf,
) -> Result<Status, OutOfMemory> {
    let words = ["a.o", "b.o", "c.o", "-o", "out", "--no-entry", "--export=f"];
    let failing = Seq::from_slice(alloc, &[1])?;
    let mut say = MemSink::new(alloc, failing);
    run(rt, alloc, &words, shelf, &mut say, &OpenGate)
}

// The answer where this call of the shelf fails.
fn answer_where(failing: u32) -> Status {
    match failing {
        1 => Status::ReadFault(0),
        2 => Status::ReadFault(1),
        3 => Status::ReadFault(2),
        _ => Status::WriteFault,
    }
}

// Whether the call that fails has its answer and nothing is saved; then the same again, where no call fails.
fn fails_once<R: Threads + Sync>(rt: &R, alloc: Global, failing: u32) -> Result<bool, OutOfMemory> {
    let mut shelf = shelf_of(alloc, three_inputs(alloc)?, &[failing])?;
    let fails = run_of_three(rt, alloc, &mut shelf)? == answer_where(failing);
    let saves = shelf.held("out").is_some();
    let links = run_of_three(rt, alloc, &mut shelf)? == Status::Linked;
    Ok(fails && !saves && links && is_held(shelf.held("out"), calling_module()))
}

#[test]
fn each_failing_call_has_its_answer(rt: HostRuntime) -> Result<(), Fail> {
    let alloc = rt.alloc();
    for failing in 1..5u32 {
        assert!(rt; fails_once(&rt, alloc, failing)?, "call {failing}");
    }
    Ok(())
}

// Whether a run of these words over the object has this exit status and prints this line.
fn prints<R: Threads + Sync>(
    rt: &R,
    alloc: Global,
    words: &[&str],
    code: u8,
    line: &[u8],
) -> Result<bool, OutOfMemory> {
    let mut shelf = one_input(alloc, calling_object(), 200)?;
    let mut say = MemSink::new(alloc, Seq::new(alloc));
    let status = run(rt, alloc, words, &mut shelf, &mut say, &OpenGate)?;
    Ok(status.code() == code && say.bytes() == line)
}

#[test]
fn each_answer_has_its_line(rt: HostRuntime) -> Result<(), Fail> {
    let alloc = rt.alloc();
    let cases = [
        (
            ["a.o", "-o", "out", "--no-entry", "--export=f"],
            0u8,
            b"".as_slice(),
        ),
        (
            ["a.o", "-o", "out", "--no-entry", "--export=h"],
            1,
            b"wasmld: input 0: unresolved h\n".as_slice(),
        ),
        (
            ["a.o", "a.o", "-o", "out", "--no-entry"],
            1,
            b"wasmld: duplicate f: input 1 and input 2\n".as_slice(),
        ),
        (
            ["a.o", "-o", "out", "--no-entry", "-u"],
            2,
            b"wasmld: usage: MissingValue at word 4\n".as_slice(),
        ),
        (
            ["a.o", "b.o", "-o", "out", "--no-entry"],
            3,
            b"wasmld: cannot read word 1\n".as_slice(),
        ),
        (
            ["a.o", "-o", "other", "--no-entry", "--export=f"],
            4,
            b"wasmld: cannot write the output\n".as_slice(),
        ),
    ];
    for (words, code, line) in cases {
        assert!(rt; prints(&rt, alloc, &words, code, line)?, "code {code}");
    }
    Ok(())
}

// How a generated case ends whose save is the first call of the shelf, and the only one.
fn case_over_nothing<R: Threads + Sync>(rt: &R, alloc: Global) -> Result<bool, OutOfMemory> {
    let words = ["--make-case=2", "-o", "out"];
    let mut shelf = shelf_of(alloc, Seq::new(alloc), &[2])?;
    let mut say = MemSink::new(alloc, Seq::new(alloc));
    let first = run(rt, alloc, &words, &mut shelf, &mut say, &OpenGate)?;
    let second = run(rt, alloc, &words, &mut shelf, &mut say, &OpenGate)?;
    Ok(first == Status::Linked && second == Status::WriteFault)
}

#[test]
fn a_generated_case_loads_nothing(rt: HostRuntime) -> Result<(), Fail> {
    let alloc = rt.alloc();
    assert!(rt; case_over_nothing(&rt, alloc)?);
    Ok(())
}

// Whether after a load that fails the shelf isn't called again: calls 2 and 3 are then the load and the save of the next run.
fn stops_at_a_failed_load<R: Threads + Sync>(rt: &R, alloc: Global) -> Result<bool, OutOfMemory> {
    let mut shelf = shelf_of(alloc, three_inputs(alloc)?, &[1, 3])?;
    let fails = run_of_three(rt, alloc, &mut shelf)? == Status::ReadFault(0);
    let mut say = MemSink::new(alloc, Seq::new(alloc));
    let ends = run(rt, alloc, &WORDS, &mut shelf, &mut say, &OpenGate)?;
    Ok(fails && ends == Status::WriteFault)
}

#[test]
fn nothing_is_loaded_after_a_failed_load(rt: HostRuntime) -> Result<(), Fail> {
    let alloc = rt.alloc();
    assert!(rt; stops_at_a_failed_load(&rt, alloc)?);
    Ok(())
}

// Whether a run over these bytes is refused since that part of them is broken.
fn is_malformed<R: Threads + Sync>(
    rt: &R,
    alloc: Global,
    bytes: &[u8],
    part: Part,
) -> Result<bool, OutOfMemory> {
    let mut shelf = one_input(alloc, bytes, 100)?;
    let mut say = MemSink::new(alloc, Seq::new(alloc));
    let status = run(rt, alloc, &WORDS, &mut shelf, &mut say, &OpenGate)?;
    Ok(status == Status::Refused(Fault::Malformed { input: 1, part }))
}

#[test]
fn what_is_cut_is_malformed(rt: HostRuntime) -> Result<(), Fail> {
    let alloc = rt.alloc();
    let object = calling_object();
    for len in 0..object.len() {
        assert!(rt;
            is_malformed(&rt, alloc, &object[..len], part_of_cut(len))?,
            "cut at {len}"
        );
    }
    Ok(())
}

// Whether a run of a generated case is linked, where this call of the sink fails, and this much of its line is written.
fn case_prints<R: Threads + Sync>(
    rt: &R,
    alloc: Global,
    failing: u32,
    line: &[u8],
) -> Result<bool, OutOfMemory> {
    let mut shelf = shelf_of(alloc, Seq::new(alloc), &[])?;
    let failing = Seq::from_slice(alloc, &[failing])?;
    let mut say = MemSink::new(alloc, failing);
    let status = run(
        rt,
        alloc,
        &["--make-case=2"],
        &mut shelf,
        &mut say,
        &OpenGate,
    )?;
    Ok(status == Status::Linked && say.bytes() == line)
}

#[test]
fn a_generated_case_has_its_line(rt: HostRuntime) -> Result<(), Fail> {
    let alloc = rt.alloc();
    let cases = [
        (
            99u32,
            b"case 2: functions 3 segments 2 bytes 124 sum 5691\n".as_slice(),
        ),
        (1, b"".as_slice()),
        (4, b"case 2: functions ".as_slice()),
    ];
    for (failing, line) in cases {
        assert!(rt; case_prints(&rt, alloc, failing, line)?, "call {failing}");
    }
    Ok(())
}
