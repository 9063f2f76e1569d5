//! Runs whose output is checked by the standard's rules of validation, and the same runs without the word.

use crate::runs::{is_held, run};
use std::alloc::Global;
use std::test::Fail;
use std::thread::Threads;
use test_kit::{calling_module, calling_object, file, shelf_of};
use wl_base::{OutOfMemory, Seq};
use wl_outside::{MemSink, OpenGate};

/// A link of one object: what is exported, and how it ends where the output is checked.
#[derive(Clone, Copy)]
struct Case<'a> {
    export: &'a str,
    object: &'a [u8],
    module: &'a [u8],
    /// The line of the check; none where it refuses nothing.
    line: &'a [u8],
}

// How a run over the object ends: whether it has this exit status and line, and saves these bytes or nothing.
pub(crate) fn ends<R: Threads + Sync>(
    rt: &R,
    alloc: Global,
    words: &[&str],
    object: &[u8],
    line: &[u8],
    saved: Option<&[u8]>,
) -> Result<bool, OutOfMemory> {
    let mut files = Seq::new(alloc);
    files.push(file(alloc, "a.o", object)?)?;
    let mut shelf = shelf_of(alloc, files, &[])?;
    let mut say = MemSink::new(alloc, Seq::new(alloc));
    let status = run(rt, alloc, words, &mut shelf, &mut say, &OpenGate)?;
    let is_saved = match saved {
        Some(bytes) => status.code() == 0 && is_held(shelf.held("out"), bytes),
        None => status.code() == 1 && shelf.held("out").is_none(),
    };
    Ok(is_saved && say.bytes() == line)
}

// Whether the link without the word gives the module, and with the word the module or the line.
fn holds<R: Threads + Sync>(rt: &R, alloc: Global, case: Case<'_>) -> Result<bool, OutOfMemory> {
    let plain = ["a.o", "-o", "out", "--no-entry", "--export", case.export];
    let checked = [
        "a.o",
        "-o",
        "out",
        "--no-entry",
        "--export",
        case.export,
        "--validate",
    ];
    let given = if case.line.is_empty() {
        Some(case.module)
    } else {
        None
    };
    Ok(
        ends(rt, alloc, &plain, case.object, b"", Some(case.module))?
            && ends(rt, alloc, &checked, case.object, case.line, given)?,
    )
}

// A valid object.
fn valid() -> Case<'static> {
    Case {
        export: "f",
        object: calling_object(),
        module: calling_module(),
        line: b"".as_slice(),
    }
}

// A function of type () to () that leaves an integer.
fn untyped() -> Case<'static> {
    Case {
        export: "f",
        object: b"\0asm\x01\0\0\0\x01\x04\x01`\0\0\x03\x02\x01\0\x0a\x06\x01\x04\0A\x01\x0b\0\x11\x07linking\x02\x08\x06\x01\0\0\0\x01f".as_slice(),
        module: b"\0asm\x01\0\0\0\x01\x04\x01`\0\0\x03\x02\x01\0\x04\x05\x01\x70\x01\x01\x01\x05\x03\x01\0\x02\x07\x0e\x02\x06memory\x02\0\x01f\0\0\x0a\x06\x01\x04\0A\x01\x0b".as_slice(),
        line: b"wasmld: invalid output: body 0\n".as_slice(),
    }
}

// The calling object, where the called function gives no integer.
fn second_untyped() -> Case<'static> {
    Case {
        export: "f",
        object: b"\0asm\x01\0\0\0\x01\x05\x01`\0\x01\x7f\x03\x03\x02\0\0\x0a\x0f\x02\x08\0\x10\x81\x80\x80\x80\0\x0b\x04\0\x01\x01\x0b\0\x16\x07linking\x02\x08\x0b\x02\0\0\0\x01f\0\0\x01\x01g\0\x10\x0areloc.CODE\x02\x01\0\x04\x01".as_slice(),
        module: b"\0asm\x01\0\0\0\x01\x05\x01\x60\x00\x01\x7f\x03\x03\x02\x00\x00\x04\x05\x01\x70\x01\x01\x01\x05\x03\x01\x00\x02\x07\x0e\x02\x06memory\x02\x00\x01f\x00\x00\x0a\x0f\x02\x08\x00\x10\x81\x80\x80\x80\x00\x0b\x04\x00\x01\x01\x0b".as_slice(),
        line: b"wasmld: invalid output: body 1\n".as_slice(),
    }
}

// A global of type i64 that begins with an integer of 32 bits: no body's fault.
fn wrong_global() -> Case<'static> {
    Case {
        export: "g",
        object: b"\0asm\x01\0\0\0\x06\x06\x01\x7e\0A\x05\x0b\0\x11\x07linking\x02\x08\x06\x01\x02\0\0\x01g".as_slice(),
        module: b"\0asm\x01\0\0\0\x04\x05\x01\x70\x01\x01\x01\x05\x03\x01\0\x02\x06\x06\x01\x7e\0A\x05\x0b\x07\x0e\x02\x06memory\x02\0\x01g\x03\0".as_slice(),
        line: b"wasmld: invalid output: module\n".as_slice(),
    }
}

#[test]
fn what_is_not_valid_is_refused_where_it_is_checked(rt: HostRuntime) -> Result<(), Fail> {
    let alloc = rt.alloc();
    let cases = [valid(), untyped(), second_untyped(), wrong_global()];
    for case in cases {
        assert!(rt; holds(&rt, alloc, case)?);
    }
    Ok(())
}
