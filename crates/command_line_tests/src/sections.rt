//! Runs that keep debug sections: what stands behind the module, and which fault is told first.

use crate::checks::ends;
use std::alloc::Global;
use std::test::Fail;
use std::thread::Threads;
use test_kit::calling_module;
use wl_base::OutOfMemory;

/// A link of one object that exports `f`.
#[derive(Clone, Copy)]
struct Case<'a> {
    object: &'a [u8],
    module: &'a [u8],
    /// The module with its debug sections; empty where they are refused.
    whole: &'a [u8],
    /// The line where the sections are kept.
    line: &'a [u8],
    /// The line where the output is checked too.
    checked: &'a [u8],
}

// What is saved, if anything.
fn saved<'a>(line: &[u8], whole: &'a [u8]) -> Option<&'a [u8]> {
    if line.is_empty() { Some(whole) } else { None }
}

// Whether the link gives the module without the word, and with it the module and its sections, or the line.
fn holds<R: Threads + Sync>(rt: &R, alloc: Global, case: Case<'_>) -> Result<bool, OutOfMemory> {
    let Case {
        object,
        module,
        whole,
        line,
        checked,
    } = case;
    let plain = ["a.o", "-o", "out", "--no-entry", "--export=f"];
    let kept = [
        "a.o",
        "-o",
        "out",
        "--no-entry",
        "--export=f",
        "--keep-debug",
    ];
    let both = [
        "a.o",
        "-o",
        "out",
        "--no-entry",
        "--export=f",
        "--keep-debug",
        "--validate",
    ];
    Ok(
        ends(rt, alloc, &plain, object, b"", Some(module))?
            && ends(rt, alloc, &kept, object, line, saved(line, whole))?
            && ends(rt, alloc, &both, object, checked, saved(checked, whole))?,
    )
}

// The section names f, and g, which f calls.
fn both_live() -> Case<'static> {
    Case {
        object: b"\0asm\x01\0\0\0\x01\x05\x01`\0\x01\x7f\x03\x03\x02\0\0\x0a\x0f\x02\x08\0\x10\x81\x80\x80\x80\0\x0b\x04\0A\x07\x0b\0\x11\x08.debug_x\0\0\0\0\0\0\0\0\0\x16\x07linking\x02\x08\x0b\x02\0\0\0\x01f\0\0\x01\x01g\0\x10\x0areloc.CODE\x02\x01\0\x04\x01\0\x19\x0ereloc..debug_x\x03\x02\x08\0\0\x01\x08\x04\x01\0".as_slice(),
        module: calling_module(),
        whole: b"\0asm\x01\0\0\0\x01\x05\x01\x60\x00\x01\x7f\x03\x03\x02\x00\x00\x04\x05\x01\x70\x01\x01\x01\x05\x03\x01\x00\x02\x07\x0e\x02\x06memory\x02\x00\x01f\x00\x00\x0a\x0f\x02\x08\x00\x10\x81\x80\x80\x80\x00\x0b\x04\x00\x41\x07\x0b\0\x11\x08.debug_x\x03\0\0\0\x0b\0\0\0".as_slice(),
        line: b"".as_slice(),
        checked: b"".as_slice(),
    }
}

// The same, where f calls nothing: the dead word stands for g.
fn one_live() -> Case<'static> {
    Case {
        object: b"\0asm\x01\0\0\0\x01\x05\x01`\0\x01\x7f\x03\x03\x02\0\0\x0a\x0f\x02\x08\0A\x07\x01\x01\x01\x01\x0b\x04\0A\x07\x0b\0\x11\x08.debug_x\0\0\0\0\0\0\0\0\0\x16\x07linking\x02\x08\x0b\x02\0\0\0\x01f\0\0\x01\x01g\0\x19\x0ereloc..debug_x\x03\x02\x08\0\0\x01\x08\x04\x01\0".as_slice(),
        module: b"\0asm\x01\0\0\0\x01\x05\x01`\0\x01\x7f\x03\x02\x01\0\x04\x05\x01p\x01\x01\x01\x05\x03\x01\0\x02\x07\x0e\x02\x06memory\x02\0\x01f\0\0\x0a\x0a\x01\x08\0A\x07\x01\x01\x01\x01\x0b".as_slice(),
        whole: b"\0asm\x01\0\0\0\x01\x05\x01`\0\x01\x7f\x03\x02\x01\0\x04\x05\x01p\x01\x01\x01\x05\x03\x01\0\x02\x07\x0e\x02\x06memory\x02\0\x01f\0\0\x0a\x0a\x01\x08\0A\x07\x01\x01\x01\x01\x0b\0\x11\x08.debug_x\x03\0\0\0\xff\xff\xff\xff".as_slice(),
        line: b"".as_slice(),
        checked: b"".as_slice(),
    }
}

// An entry of a type that can't stand there, and a function that gives no integer: the check comes first.
fn two_faults() -> Case<'static> {
    Case {
        object: b"\0asm\x01\0\0\0\x01\x05\x01`\0\x01\x7f\x03\x03\x02\0\0\x0a\x0f\x02\x08\0\x10\x81\x80\x80\x80\0\x0b\x04\0\x01\x01\x0b\0\x11\x08.debug_x\0\0\0\0\0\0\0\0\0\x16\x07linking\x02\x08\x0b\x02\0\0\0\x01f\0\0\x01\x01g\0\x10\x0areloc.CODE\x02\x01\0\x04\x01\0\x18\x0ereloc..debug_x\x03\x02\x08\0\0\x01\0\x04\x01".as_slice(),
        module: b"\0asm\x01\0\0\0\x01\x05\x01\x60\x00\x01\x7f\x03\x03\x02\x00\x00\x04\x05\x01\x70\x01\x01\x01\x05\x03\x01\x00\x02\x07\x0e\x02\x06memory\x02\x00\x01f\x00\x00\x0a\x0f\x02\x08\x00\x10\x81\x80\x80\x80\x00\x0b\x04\x00\x01\x01\x0b".as_slice(),
        whole: b"".as_slice(),
        line: b"wasmld: input 1: bad debug section 3\n".as_slice(),
        checked: b"wasmld: invalid output: body 1\n".as_slice(),
    }
}

#[test]
fn debug_sections_stand_behind_the_module(rt: HostRuntime) -> Result<(), Fail> {
    let alloc = rt.alloc();
    let cases = [both_live(), one_live(), two_faults()];
    for case in cases {
        assert!(rt; holds(&rt, alloc, case)?);
    }
    Ok(())
}
