//! Calls over objects with debug sections: these and the functions' names are kept unless a word strips them.

use crate::calls::call;
use std::alloc::Global;
use std::test::Fail;
use std::thread::Threads;
use test_kit::{calling_module, file, shelf_of};
use wl_base::{OutOfMemory, Seq};
use wl_outside::MemSink;

// The function f, which calls g, and a section that names both.
const OBJECT: &[u8] =
    b"\0asm\x01\0\0\0\x01\x05\x01`\0\x01\x7f\x03\x03\x02\0\0\x0a\x0f\x02\x08\0\x10\x81\x80\x80\x80\0\x0b\x04\0A\x07\x0b\0\x11\x08.debug_x\0\0\0\0\0\0\0\0\0\x16\x07linking\x02\x08\x0b\x02\0\0\0\x01f\0\0\x01\x01g\0\x10\x0areloc.CODE\x02\x01\0\x04\x01\0\x19\x0ereloc..debug_x\x03\x02\x08\0\0\x01\x08\x04\x01\0";

// The same with a relocation of another type for the section.
const BROKEN: &[u8] =
    b"\0asm\x01\0\0\0\x01\x05\x01`\0\x01\x7f\x03\x03\x02\0\0\x0a\x0f\x02\x08\0\x10\x81\x80\x80\x80\0\x0b\x04\0A\x07\x0b\0\x11\x08.debug_x\0\0\0\0\0\0\0\0\0\x16\x07linking\x02\x08\x0b\x02\0\0\0\x01f\0\0\x01\x01g\0\x10\x0areloc.CODE\x02\x01\0\x04\x01\0\x18\x0ereloc..debug_x\x03\x02\x08\0\0\x01\0\x04\x01";

// The section as it is joined, and the functions' names behind it.
const SECTIONS: &[u8] =
    b"\0\x11\x08.debug_x\x03\0\0\0\x0b\0\0\0\0\x0e\x04name\x01\x07\x02\0\x01f\x01\x01g";

// The names alone.
const NAMES: &[u8] = b"\0\x0e\x04name\x01\x07\x02\0\x01f\x01\x01g";

// Whether this is the module with these bytes behind it.
fn is_module_and(found: Option<&[u8]>, behind: &[u8]) -> bool {
    match found {
        Some(found) => found.strip_prefix(calling_module()) == Some(behind),
        None => false,
    }
}

// Whether a call saves the module with these bytes behind it, and says nothing; or nothing, and says this.
fn ends<R: Threads + Sync>(
    rt: &R,
    alloc: Global,
    line: &str,
    behind: Option<&[u8]>,
    said: &str,
) -> Result<bool, OutOfMemory> {
    let mut files = Seq::new(alloc);
    files.push(file(alloc, "a.o", OBJECT)?)?;
    files.push(file(alloc, "bad.o", BROKEN)?)?;
    let mut shelf = shelf_of(alloc, files, &[])?;
    let mut out = MemSink::new(alloc, Seq::new(alloc));
    let mut say = MemSink::new(alloc, Seq::new(alloc));
    let code = call(rt, alloc, line, &mut shelf, &mut out, &mut say)?;
    let saved = match behind {
        Some(behind) => code == 0 && is_module_and(shelf.held("out"), behind),
        None => code == 1 && shelf.held("out").is_none(),
    };
    Ok(saved && say.bytes() == said.as_bytes())
}

#[test]
fn sections_are_kept_unless_a_word_strips_them(rt: HostRuntime) -> Result<(), Fail> {
    let alloc = rt.alloc();
    let cases = [
        (
            "a.o -o out --no-entry --export=f --no-stack-first",
            Some(SECTIONS),
            "",
        ),
        (
            "a.o -o out --no-entry --export=f --no-stack-first -s",
            Some(b"".as_slice()),
            "",
        ),
        (
            "-S a.o -o out --no-entry --export=f --no-stack-first",
            Some(NAMES),
            "",
        ),
        (
            "-s a.o -o out --keep-section=name --no-entry --export=f --no-stack-first",
            Some(NAMES),
            "",
        ),
        (
            "-s a.o -o out --keep-section=target_features --no-entry --export=f --no-stack-first",
            Some(b"".as_slice()),
            "",
        ),
        (
            "bad.o -o out --no-entry --export=f --no-stack-first",
            None,
            "wasm-ld: error: bad.o: malformed debug section 3\n",
        ),
        (
            "bad.o --strip-debug -o out --no-entry --export=f --no-stack-first",
            Some(NAMES),
            "",
        ),
    ];
    for (line, behind, said) in cases {
        assert!(rt; ends(&rt, alloc, line, behind, said)?, "{line}");
    }
    Ok(())
}
