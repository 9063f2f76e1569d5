//! The names of inputs: those of objects' files and of libraries' members.

use driver_lines::input_names;
use std::alloc::Global;
use std::test::Fail;
use test_kit::{defines_a, library, texts};
use wl_base::{OutOfMemory, Seq};

/// A library by LLVM's `ar`: an index, a long name, and the members `a b.o` and `a_name_that_is_long.o`.
fn by_llvm() -> &'static [u8] {
    b"!<arch>\n/               0           0     0     0       16        `\n\0\0\0\x02\0\0\0\xa8\0\0\x01\x14a\0b\0//                                              24        `\na_name_that_is_long.o/\n\na b.o/          0           0     0     644     47        `\n\0asm\x01\0\0\0\x01\x04\x01`\0\0\x03\x02\x01\0\n\x04\x01\x02\0\x0b\0\x15\x07linking\x02\x08\n\x02\0\0\0\x01a\x01\x10\x01b\n/0              0           0     0     644     47        `\n\0asm\x01\0\0\0\x01\x04\x01`\0\0\x03\x02\x01\0\n\x04\x01\x02\0\x0b\0\x15\x07linking\x02\x08\n\x02\0\0\0\x01b\x01\x10\x01a\n".as_slice()
}

/// A library whose index is empty and whose members have no bytes: a name without a slash, one that
/// isn't UTF-8, and the place of a long name where there is none.
fn with_odd_names() -> &'static [u8] {
    b"!<arch>\n/               0           0     0     0       4         `\n\0\0\0\0m.o             0           0     0     644     0         `\n\xff.o/            0           0     0     644     0         `\n/7              0           0     0     644     0         `\n".as_slice()
}

fn files_of(alloc: Global, files: &[&[u8]]) -> Result<Seq<Seq<u8>>, OutOfMemory> {
    let mut all = Seq::new(alloc);
    for bytes in files {
        all.push(Seq::from_slice(alloc, bytes)?)?;
    }
    Ok(all)
}

/// Whether the inputs of these files are called so.
fn are_called(
    alloc: Global,
    names: &[&str],
    files: &[&[u8]],
    these: &[&str],
) -> Result<bool, OutOfMemory> {
    let names = texts(alloc, names)?;
    let files = files_of(alloc, files)?;
    let all = input_names(alloc, names.as_slice(), files.as_slice())?;
    if all.len() != these.len() {
        return Ok(false);
    }
    for (name, this) in all.as_slice().iter().zip(these) {
        if name.as_str() != *this {
            return Ok(false);
        }
    }
    Ok(true)
}

#[test]
fn inputs_are_counted_over_files_and_members(rt: HostRuntime) -> Result<(), Fail> {
    let holds = are_called(
        rt.alloc(),
        &["main.o", "./libx.a", "g2.o"],
        &[defines_a(), by_llvm(), defines_a()],
        &[
            "main.o",
            "./libx.a(a b.o)",
            "./libx.a(a_name_that_is_long.o)",
            "g2.o",
        ],
    );
    assert!(rt; holds == Ok(true));
    Ok(())
}

#[test]
fn a_library_without_long_names_has_short_ones(rt: HostRuntime) -> Result<(), Fail> {
    let holds = are_called(rt.alloc(), &["y.a"], &[library()], &["y.a(m)", "y.a(m)"]);
    assert!(rt; holds == Ok(true));
    Ok(())
}

#[test]
fn odd_names_are_told(rt: HostRuntime) -> Result<(), Fail> {
    let holds = are_called(
        rt.alloc(),
        &["y.a"],
        &[with_odd_names()],
        &["y.a(m.o)", "y.a(\u{fffd}.o)", "y.a()"],
    );
    assert!(rt; holds == Ok(true));
    Ok(())
}

#[test]
fn what_is_no_library_is_called_by_its_file(rt: HostRuntime) -> Result<(), Fail> {
    let holds = are_called(
        rt.alloc(),
        &["text.o", "cut.a", "m.o"],
        &[b"hello".as_slice(), b"!<arch>\nx".as_slice(), defines_a()],
        &["text.o", "m.o"],
    );
    assert!(rt; holds == Ok(true));
    Ok(())
}
