//! Inputs: libraries in folders, response files, thin libraries, start files.

use crate::cases::{File, NONE, Want, all_stand_for};
use std::test::Fail;

/// Libraries of two folders.
const TWO_FOLDERS: &[File] = &[
    ("a/libx.a", ""),
    ("b/libx.a", ""),
    ("b/liby.a", ""),
    ("a/libx.so", ""),
    ("a/z.o", ""),
];

/// A library in a folder whose name begins with a dash.
const FOLDER_WITH_DASH: &[File] = &[("-d/libx.a", "")];

/// A response file that names another.
const RESPONSE_FILES: &[File] = &[
    ("a", "m.o \"x y.o\"\n'q'r\\ s.o\n@b"),
    ("b", "n.o \"\" -O2"),
];

/// A response file that names itself.
const FILE_OF_ITSELF: &[File] = &[("a", "@a m.o")];

/// A thin library of two members, one of them with a path from the root.
const THIN_LIBRARY: &[File] = &[(
    "d/t.a",
    "!<thin>\n/               0           0     0     644     4         `\n\0\0\0\0//              0           0     0     644     15        `\na.o/\n/abs/b.o/\n\n/0              0           0     0     644     100       `\n/5              0           0     0     644     100       `\n",
)];

/// A thin library without members.
const THIN_LIBRARY_OF_NONE: &[File] = &[("d/t.a", "!<thin>\n")];

/// A thin library of one member.
const THIN_LIBRARY_OF_ONE: &[File] = &[(
    "d/t.a",
    "!<thin>\n/               0           0     0     644     4         `\n\0\0\0\0//              0           0     0     644     5         `\na.o/\n\n/0              0           0     0     644     100       `\n",
)];

/// A start file that leaves constructors to the linker, with `crt1.o` beside it.
const CRT1_BESIDE: &[File] = &[("d/crt1-command.o", ""), ("d/crt1.o", "")];

/// The same two, without a folder.
const CRT1_HERE: &[File] = &[("crt1-command.o", ""), ("./crt1.o", "")];

/// `crt1.o` in a folder of libraries alone.
const CRT1_IN_LIBRARIES: &[File] = &[("d/crt1-command.o", ""), ("s/crt1.o", "")];

/// The start file alone.
const NO_CRT1: &[File] = &[("d/crt1-command.o", "")];

/// A start file that calls the constructors, beside a `crt1.o`.
const CALLS_CONSTRUCTORS: &[File] = &[
    ("d/crt1-command.o", "call __wasm_call_ctors"),
    ("d/crt1.o", ""),
];

#[test]
fn folders_and_libraries(rt: HostRuntime) -> Result<(), Fail> {
    let cases: [(&[File], &'static str, Want); 13] = [
        (
            TWO_FOLDERS,
            "m.o -lx -La -Lb -o o",
            Want::Own("-o o --stack-first --keep-debug m.o a/libx.a"),
        ),
        (
            TWO_FOLDERS,
            "m.o -Lb -La -lx -o o",
            Want::Own("-o o --stack-first --keep-debug m.o b/libx.a"),
        ),
        (
            TWO_FOLDERS,
            "m.o -l x -L a/ -o o",
            Want::Own("-o o --stack-first --keep-debug m.o a/libx.a"),
        ),
        (
            TWO_FOLDERS,
            "m.o --library=y --library-path=a --library-path b -o o",
            Want::Own("-o o --stack-first --keep-debug m.o b/liby.a"),
        ),
        (
            TWO_FOLDERS,
            "m.o -l:z.o -Lb -La -o o",
            Want::Own("-o o --stack-first --keep-debug m.o a/z.o"),
        ),
        (
            TWO_FOLDERS,
            "m.o -l:libx.so -La -o o",
            Want::Own("-o o --stack-first --keep-debug m.o a/libx.so"),
        ),
        (
            TWO_FOLDERS,
            "m.o -Bdynamic -lx -La -o o",
            Want::Own("-o o --stack-first --keep-debug m.o a/libx.a"),
        ),
        (
            TWO_FOLDERS,
            "m.o -lq -La -Lb -o o",
            Want::Line("unable to find library -lq"),
        ),
        (
            TWO_FOLDERS,
            "m.o -lx -o o",
            Want::Line("unable to find library -lx"),
        ),
        (
            TWO_FOLDERS,
            "m.o -La -l -o o",
            Want::Line("no output file specified"),
        ),
        (TWO_FOLDERS, "m.o -L", Want::Line("-L: missing argument")),
        (
            FOLDER_WITH_DASH,
            "m.o -L-d -lx -o o",
            Want::Own("-o o --stack-first --keep-debug m.o ./-d/libx.a"),
        ),
        (
            NONE,
            "- -o o",
            Want::Own("-o o --stack-first --keep-debug ./-"),
        ),
    ];
    assert!(rt; all_stand_for(rt.alloc(), &cases));
    Ok(())
}

#[test]
fn response_files(rt: HostRuntime) -> Result<(), Fail> {
    let cases: [(&[File], &'static str, Want); 4] = [
        (
            RESPONSE_FILES,
            "@a -o o",
            Want::Own("-o o --stack-first --keep-debug m.o 'x y.o' 'qr s.o' n.o"),
        ),
        (
            NONE,
            "@nosuch -o o",
            Want::Own("-o o --stack-first --keep-debug @nosuch"),
        ),
        (
            NONE,
            "--rsp-quoting=windows m.o -o o",
            Want::Line("--rsp-quoting=windows is not supported"),
        ),
        (
            FILE_OF_ITSELF,
            "@a -o o",
            Want::Line("recursive expansion of: 'a'"),
        ),
    ];
    assert!(rt; all_stand_for(rt.alloc(), &cases));
    Ok(())
}

#[test]
fn thin_libraries(rt: HostRuntime) -> Result<(), Fail> {
    let cases: [(&[File], &'static str, Want); 5] = [
        (
            THIN_LIBRARY_OF_NONE,
            "m.o d/t.a -o o",
            Want::Own("-o o --stack-first --keep-debug m.o --start-lib --end-lib"),
        ),
        (
            THIN_LIBRARY_OF_NONE,
            "d/t.a -o o",
            Want::Line("no input files"),
        ),
        (
            THIN_LIBRARY,
            "m.o d/t.a -o o",
            Want::Own("-o o --stack-first --keep-debug m.o --start-lib d/a.o /abs/b.o --end-lib"),
        ),
        (
            THIN_LIBRARY_OF_ONE,
            "m.o --whole-archive d/t.a --no-whole-archive -o o",
            Want::Own(
                "-o o --stack-first --keep-debug m.o --whole-archive d/a.o --no-whole-archive",
            ),
        ),
        (
            THIN_LIBRARY_OF_ONE,
            "m.o --start-lib d/t.a --end-lib -o o",
            Want::Own("-o o --stack-first --keep-debug m.o --start-lib d/a.o --end-lib"),
        ),
    ];
    assert!(rt; all_stand_for(rt.alloc(), &cases));
    Ok(())
}

#[test]
fn start_files(rt: HostRuntime) -> Result<(), Fail> {
    let cases: [(&[File], &'static str, Want); 7] = [
        (
            CRT1_BESIDE,
            "d/crt1-command.o m.o -o o",
            Want::Own("-o o --stack-first --keep-debug d/crt1.o m.o"),
        ),
        (
            CRT1_HERE,
            "crt1-command.o m.o -o o",
            Want::Own("-o o --stack-first --keep-debug ./crt1.o m.o"),
        ),
        (
            CRT1_IN_LIBRARIES,
            "d/crt1-command.o m.o -Ls -o o",
            Want::Own("-o o --stack-first --keep-debug s/crt1.o m.o"),
        ),
        (
            NO_CRT1,
            "d/crt1-command.o m.o -o o",
            Want::Line(
                "d/crt1-command.o: constructors would not be called, and there is no crt1.o beside it or in a folder of -L",
            ),
        ),
        (
            CALLS_CONSTRUCTORS,
            "d/crt1-command.o m.o -o o",
            Want::Own("-o o --stack-first --keep-debug d/crt1-command.o m.o"),
        ),
        (
            NONE,
            "d/crt1-command.o m.o -o o",
            Want::Own("-o o --stack-first --keep-debug d/crt1-command.o m.o"),
        ),
        (
            NONE,
            "crt1-reactor.o m.o --entry _initialize -o o",
            Want::Own("-o o --entry=_initialize --stack-first --keep-debug crt1-reactor.o m.o"),
        ),
    ];
    assert!(rt; all_stand_for(rt.alloc(), &cases));
    Ok(())
}
