//! Worked links.

use crate::both::{Case, fail, hold};
use std::alloc::Global;
use std::test::Fail;
use std::thread::Threads;
use test_kit::{calling_object, name};
use wl_base::Fault;

/// Of clang: `int a = 5;`, `inc` and `dec` add and subtract it, and `f(i, x)` calls one of them through a table of two.
const DATA: &[u8; 416] =
    b"\0asm\x01\0\0\0\x01\x8C\x80\x80\x80\0\x02`\x01\x7F\x01\x7F`\x02\x7F\x7F\x01\x7F\x02\xBA\x80\x80\x80\0\x02\x03env\x0F__linear_memory\x02\0\x01\x03env\x19__indirect_function_table\x01p\0\x02\x03\x84\x80\x80\x80\0\x03\0\0\x01\x09\x88\x80\x80\x80\0\x01\0A\x01\x0B\x02\0\x01\x0C\x81\x80\x80\x80\0\x02\x0A\xBA\x80\x80\x80\0\x03\x0E\0A\0(\x02\x80\x80\x80\x80\0 \0j\x0B\x0E\0 \0A\0(\x02\x80\x80\x80\x80\0k\x0B\x1A\0 \x01 \0A\x02tA\x84\x80\x80\x80\0j(\x02\0\x11\x80\x80\x80\x80\0\0\x0B\x0B\x97\x80\x80\x80\0\x02\0A\0\x0B\x04\x05\0\0\0\0A\x04\x0B\x08\x01\0\0\0\x02\0\0\0\0\xD6\x80\x80\x80\0\x07linking\x02\x08\xA6\x80\x80\x80\0\x05\0\x02\0\x03inc\x01\x04\x01a\0\0\x04\0\x02\x01\x03dec\0\x04\x02\x01f\x01\x04\x05table\x01\0\x08\x05\x9B\x80\x80\x80\0\x02\x07.data.a\x02\0\x0D.rodata.table\x02\0\0\x9C\x80\x80\x80\0\x0Areloc.CODE\x05\x04\x03\x07\x01\0\x03\x18\x01\0\x04)\x04\0\x063\0\0\x93\x80\x80\x80\0\x0Areloc.DATA\x06\x02\x02\x0F\0\x02\x13\x02\0\xAD\x80\x80\x80\0\x09producers\x01\x0Cprocessed-by\x01\x0CDebian clang\x0614.0.6";

/// Of clang: `f(x)` gives 3 where `x` is 0, and else calls `w`, which is weak and undefined.
const STUB: &[u8; 197] =
    b"\0asm\x01\0\0\0\x01\x86\x80\x80\x80\0\x01`\x01\x7F\x01\x7F\x02\xA0\x80\x80\x80\0\x02\x03env\x0F__linear_memory\x02\0\0\x03env\x01w\0\0\x03\x82\x80\x80\x80\0\x01\0\x0A\x96\x80\x80\x80\0\x01\x14\0\x02@ \0\x0D\0A\x03\x0F\x0B \0\x10\x80\x80\x80\x80\0\x0B\0\x98\x80\x80\x80\0\x07linking\x02\x08\x89\x80\x80\x80\0\x02\0\x04\x01\x01f\0\x11\0\0\x90\x80\x80\x80\0\x0Areloc.CODE\x03\x01\0\x10\x01\0\xAD\x80\x80\x80\0\x09producers\x01\x0Cprocessed-by\x01\x0CDebian clang\x0614.0.6";

/// Of clang: a constructor adds 9 to `a`, and `f` gives it.
const CONSTRUCTOR: &[u8; 312] =
    b"\0asm\x01\0\0\0\x01\x88\x80\x80\x80\0\x02`\0\0`\0\x01\x7F\x02\xBA\x80\x80\x80\0\x02\x03env\x0F__linear_memory\x02\0\x01\x03env\x19__indirect_function_table\x01p\0\0\x03\x83\x80\x80\x80\0\x02\0\x01\x0C\x81\x80\x80\x80\0\x01\x0A\xA5\x80\x80\x80\0\x02\x17\0A\0A\0(\x02\x80\x80\x80\x80\0A\x09j6\x02\x80\x80\x80\x80\0\x0B\x0B\0A\0(\x02\x80\x80\x80\x80\0\x0B\x0B\x8A\x80\x80\x80\0\x01\0A\0\x0B\x04\0\0\0\0\0\xBF\x80\x80\x80\0\x07linking\x02\x08\x95\x80\x80\x80\0\x03\0\x02\0\x04init\x01\x04\x01a\0\0\x04\0\x04\x01\x01f\x05\x8A\x80\x80\x80\0\x01\x06.bss.a\x02\0\x06\x85\x80\x80\x80\0\x01\xFF\xFF\x03\0\0\x99\x80\x80\x80\0\x0Areloc.CODE\x04\x03\x03\x09\x01\0\x03\x13\x01\0\x03\x1F\x01\0\0\xAD\x80\x80\x80\0\x09producers\x01\x0Cprocessed-by\x01\x0CDebian clang\x0614.0.6";

/// Of clang: `f(x)` gives `h(x) + 1`, where `h` is undefined.
const ASKING: &[u8; 190] =
    b"\0asm\x01\0\0\0\x01\x86\x80\x80\x80\0\x01`\x01\x7F\x01\x7F\x02\xA0\x80\x80\x80\0\x02\x03env\x0F__linear_memory\x02\0\0\x03env\x01h\0\0\x03\x82\x80\x80\x80\0\x01\0\x0A\x8F\x80\x80\x80\0\x01\x0D\0 \0\x10\x80\x80\x80\x80\0A\x01j\x0B\0\x98\x80\x80\x80\0\x07linking\x02\x08\x89\x80\x80\x80\0\x02\0\x04\x01\x01f\0\x10\0\0\x90\x80\x80\x80\0\x0Areloc.CODE\x03\x01\0\x06\x01\0\xAD\x80\x80\x80\0\x09producers\x01\x0Cprocessed-by\x01\x0CDebian clang\x0614.0.6";

/// Of clang: `f` calls `g`, which calls `h`, and so does `d`, which nothing calls.
const CHAIN: &[u8; 226] =
    b"\0asm\x01\0\0\0\x01\x85\x80\x80\x80\0\x01`\0\x01\x7F\x02\xA0\x80\x80\x80\0\x02\x03env\x0F__linear_memory\x02\0\0\x03env\x01h\0\0\x03\x84\x80\x80\x80\0\x03\0\0\0\x0A\xA2\x80\x80\x80\0\x03\x0B\0\x10\x80\x80\x80\x80\0A\x01j\x0B\x0B\0\x10\x81\x80\x80\x80\0A\x01j\x0B\x08\0\x10\x80\x80\x80\x80\0\x0B\0\xA2\x80\x80\x80\0\x07linking\x02\x08\x93\x80\x80\x80\0\x04\0\x04\x01\x01g\0\x10\0\0\x04\x02\x01f\0\x04\x03\x01d\0\x96\x80\x80\x80\0\x0Areloc.CODE\x03\x03\0\x04\x01\0\x10\0\0\x1C\x01\0\xAD\x80\x80\x80\0\x09producers\x01\x0Cprocessed-by\x01\x0CDebian clang\x0614.0.6";

/// Of clang: `h` gives 5.
const END: &[u8; 147] =
    b"\0asm\x01\0\0\0\x01\x85\x80\x80\x80\0\x01`\0\x01\x7F\x02\x98\x80\x80\x80\0\x01\x03env\x0F__linear_memory\x02\0\0\x03\x82\x80\x80\x80\0\x01\0\x0A\x86\x80\x80\x80\0\x01\x04\0A\x05\x0B\0\x95\x80\x80\x80\0\x07linking\x02\x08\x86\x80\x80\x80\0\x01\0\x04\0\x01h\0\xAD\x80\x80\x80\0\x09producers\x01\x0Cprocessed-by\x01\x0CDebian clang\x0614.0.6";

/// `f` drops an f32.
const CARRIED: &[u8; 99] =
    b"\0asm\x01\0\0\0\x01\x84\x80\x80\x80\0\x01`\0\0\x02\x98\x80\x80\x80\0\x01\x03env\x0F__linear_memory\x02\0\0\x03\x82\x80\x80\x80\0\x01\0\x0A\x8A\x80\x80\x80\0\x01\x08\0C\0\0\x80?\x1A\x0B\0\x95\x80\x80\x80\0\x07linking\x02\x08\x86\x80\x80\x80\0\x01\0\0\0\x01f";

/// `f` drops its f64.
const FLOAT: &[u8; 97] =
    b"\0asm\x01\0\0\0\x01\x85\x80\x80\x80\0\x01`\x01|\0\x02\x98\x80\x80\x80\0\x01\x03env\x0F__linear_memory\x02\0\0\x03\x82\x80\x80\x80\0\x01\0\x0A\x87\x80\x80\x80\0\x01\x05\0 \0\x1A\x0B\0\x95\x80\x80\x80\0\x07linking\x02\x08\x86\x80\x80\x80\0\x01\0\0\0\x01f";

/// Of clang with -fPIC: `f` reads the addresses of a function and a datum from cells.
const CELLS: &[u8; 367] =
    b"\0asm\x01\0\0\0\x01\x86\x80\x80\x80\0\x01`\x01\x7F\x01\x7F\x02\xBA\x80\x80\x80\0\x02\x03env\x0F__linear_memory\x02\0\x01\x03env\x19__indirect_function_table\x01p\0\x01\x03\x83\x80\x80\x80\0\x02\0\0\x09\x87\x80\x80\x80\0\x01\0A\x01\x0B\x01\0\x0C\x81\x80\x80\x80\0\x01\x0A\xB2\x80\x80\x80\0\x02\x0E\0A\0(\x02\x80\x80\x80\x80\0 \0j\x0B!\x01\x01\x7FA\x81\x80\x80\x80\0!\x01 \0 \x01\x11\x80\x80\x80\x80\0\0A\0(\x02\x80\x80\x80\x80\0j\x0B\x0B\x8A\x80\x80\x80\0\x01\0A\0\x0B\x04\x05\0\0\0\0\xB4\x80\x80\x80\0\x07linking\x02\x08\x94\x80\x80\x80\0\x03\0\x04\0\x03inc\x01\x04\x01a\0\0\x04\0\x04\x01\x01f\x05\x8B\x80\x80\x80\0\x01\x07.data.a\x02\0\0\x9B\x80\x80\x80\0\x0Areloc.CODE\x05\x04\x03\x07\x01\0\x01\x15\0\x06!\0\x03+\x01\0\0\xAD\x80\x80\x80\0\x09producers\x01\x0Cprocessed-by\x01\x0CDebian clang\x0614.0.6\0\xA2\x80\x80\x80\0\x0Ftarget_features\x01+\x0Fmutable-globals";

/// A function that does nothing.
const EMPTY: &[u8; 93] =
    b"\0asm\x01\0\0\0\x01\x84\x80\x80\x80\0\x01`\0\0\x02\x98\x80\x80\x80\0\x01\x03env\x0F__linear_memory\x02\0\0\x03\x82\x80\x80\x80\0\x01\0\x0A\x84\x80\x80\x80\0\x01\x02\0\x0B\0\x95\x80\x80\x80\0\x07linking\x02\x08\x86\x80\x80\x80\0\x01\0\0\0\x01e";

/// A group whose function is local.
const GROUP: &[u8; 111] =
    b"\0asm\x01\0\0\0\x01\x85\x80\x80\x80\0\x01`\0\x01\x7F\x02\x98\x80\x80\x80\0\x01\x03env\x0F__linear_memory\x02\0\0\x03\x82\x80\x80\x80\0\x01\0\x0A\x86\x80\x80\x80\0\x01\x04\0A\x01\x0B\0\xA4\x80\x80\x80\0\x07linking\x02\x08\x86\x80\x80\x80\0\x01\0\x02\0\x01g\x07\x89\x80\x80\x80\0\x01\x03grp\0\x01\x01\0";

/// The same group, and `f`, which calls its function.
const GROUP_CALLED: &[u8; 148] =
    b"\0asm\x01\0\0\0\x01\x85\x80\x80\x80\0\x01`\0\x01\x7F\x02\x98\x80\x80\x80\0\x01\x03env\x0F__linear_memory\x02\0\0\x03\x83\x80\x80\x80\0\x02\0\0\x0A\x8F\x80\x80\x80\0\x02\x04\0A\x01\x0B\x08\0\x10\x80\x80\x80\x80\0\x0B\0\xA9\x80\x80\x80\0\x07linking\x02\x08\x8B\x80\x80\x80\0\x02\0\x02\0\x01g\0\0\x01\x01f\x07\x89\x80\x80\x80\0\x01\x03grp\0\x01\x01\0\0\x90\x80\x80\x80\0\x0Areloc.CODE\x03\x01\0\x09\0";

/// The same group, and `d`, which calls its function.
const GROUP_DEAD: &[u8; 148] =
    b"\0asm\x01\0\0\0\x01\x85\x80\x80\x80\0\x01`\0\x01\x7F\x02\x98\x80\x80\x80\0\x01\x03env\x0F__linear_memory\x02\0\0\x03\x83\x80\x80\x80\0\x02\0\0\x0A\x8F\x80\x80\x80\0\x02\x04\0A\x01\x0B\x08\0\x10\x80\x80\x80\x80\0\x0B\0\xA9\x80\x80\x80\0\x07linking\x02\x08\x8B\x80\x80\x80\0\x02\0\x02\0\x01g\0\0\x01\x01d\x07\x89\x80\x80\x80\0\x01\x03grp\0\x01\x01\0\0\x90\x80\x80\x80\0\x0Areloc.CODE\x03\x01\0\x09\0";

/// A group whose local function writes 7 to 1024 and is an init function.
const INIT: &[u8; 127] =
    b"\0asm\x01\0\0\0\x01\x84\x80\x80\x80\0\x01`\0\0\x02\x98\x80\x80\x80\0\x01\x03env\x0F__linear_memory\x02\0\0\x03\x82\x80\x80\x80\0\x01\0\x0A\x8C\x80\x80\x80\0\x01\x0A\0A\0A\x07:\0\x80\x08\x0B\0\xAF\x80\x80\x80\0\x07linking\x02\x08\x86\x80\x80\x80\0\x01\0\x02\0\x01g\x06\x85\x80\x80\x80\0\x01\xFF\xFF\x03\0\x07\x89\x80\x80\x80\0\x01\x03grp\0\x01\x01\0";

/// A weak `f` that gives 2.
const GIVING: &[u8; 46] =
    b"\0asm\x01\0\0\0\x01\x05\x01`\0\x01\x7F\x03\x02\x01\0\x0A\x06\x01\x04\0A\x02\x0B\0\x11\x07linking\x02\x08\x06\x01\0\x01\0\x01f";

/// `w` is weak and undefined: `f` calls it, `g` calls it through the table, and `h` adds its place there to its argument.
const NULL: &[u8; 136] =
    b"\0asm\x01\0\0\0\x01\x06\x01`\x01\x7F\x01\x7F\x02\x09\x01\x03env\x01w\0\0\x03\x04\x03\0\0\0\x0A*\x03\x0A\0 \0\x10\x80\x80\x80\x80\0\x0B\x11\0 \0A\x80\x80\x80\x80\0\x11\x80\x80\x80\x80\0\0\x0B\x0B\0 \0A\x80\x80\x80\x80\0j\x0B\0\x1E\x07linking\x02\x08\x13\x04\0\x11\0\0\0\x01\x01f\0\0\x02\x01g\0\0\x03\x01h\0\x19\x0Areloc.CODE\x03\x04\0\x06\0\x01\x11\0\x06\x17\0\x01#\0";

/// Init functions `p` of priority 200 and `q` of priority 100, which ask the host for `P` and `Q`.
const LATE_AND_EARLY: &[u8; 122] =
    b"\0asm\x01\0\0\0\x01\x04\x01`\0\0\x02\x11\x02\x03env\x01P\0\0\x03env\x01Q\0\0\x03\x03\x02\0\0\x0A\x13\x02\x08\0\x10\x80\x80\x80\x80\0\x0B\x08\0\x10\x80\x80\x80\x80\0\x0B\0(\x07linking\x02\x08\x15\x04\0P\0\x01P\0P\x01\x01Q\0\x04\x02\x01p\0\x04\x03\x01q\x06\x06\x02\xC8\x01\x02d\x03\0\x13\x0Areloc.CODE\x03\x02\0\x04\0\0\x0D\x01";

/// An init function of priority 100, which asks the host for `R`.
const EARLY: &[u8; 88] =
    b"\0asm\x01\0\0\0\x01\x04\x01`\0\0\x02\x09\x01\x03env\x01R\0\0\x03\x02\x01\0\x0A\x0A\x01\x08\0\x10\x80\x80\x80\x80\0\x0B\0\x1B\x07linking\x02\x08\x0B\x02\0P\0\x01R\0\x04\x01\x01r\x06\x03\x01d\x01\0\x10\x0Areloc.CODE\x03\x01\0\x04\0";

/// `--no-entry` and `--export=f` of one input.
const ONE: [&str; 5] = ["a.o", "-o", "out", "--no-entry", "--export=f"];

/// The same of two.
const TWO: [&str; 6] = ["a.o", "b.o", "-o", "out", "--no-entry", "--export=f"];

/// The same of three.
const THREE: [&str; 7] = ["a.o", "b.o", "c.o", "-o", "out", "--no-entry", "--export=f"];

fn case<'a>(script: &'a [u8], text: &'a [u8]) -> Case<'a> {
    Case {
        script,
        steps: 100,
        text,
    }
}

#[test]
fn a_call_is_told_to_its_bound(rt: HostRuntime) -> Result<(), Fail> {
    let alloc = rt.alloc();
    let script = b"call f".as_slice();
    let cases = [
        Case {
            script,
            steps: 3,
            text: b"steps spent\nmemory 2\nend\n".as_slice(),
        },
        case(script, b"returned i32:7\nmemory 2\nend\n".as_slice()),
    ];
    assert!(rt; hold(&rt, alloc, &ONE, &[calling_object()], &cases));
    Ok(())
}

#[test]
fn data_and_tables_are_told(rt: HostRuntime) -> Result<(), Fail> {
    let alloc = rt.alloc();
    let data = [
        case(
            b"call f i32:0 i32:7\ncall f i32:1 i32:7".as_slice(),
            b"returned i32:12\nreturned i32:2\nmemory 2\n00000400 05000000010000000200000000000000\nend\n".as_slice(),
        ),
        case(
            b"call f i32:2 i32:7".as_slice(),
            b"trapped NullEntry\nmemory 2\n00000400 05000000010000000200000000000000\nend\n".as_slice(),
        ),
    ];
    assert!(rt; hold(&rt, alloc, &ONE, &[DATA.as_slice()], &data));
    let cells = [case(
        b"call f i32:4".as_slice(),
        b"returned i32:14\nmemory 2\n00000400 05000000000000000000000000000000\nend\n".as_slice(),
    )];
    assert!(rt; hold(&rt, alloc, &ONE, &[CELLS.as_slice()], &cells));
    Ok(())
}

#[test]
fn stubs_and_the_host_are_told(rt: HostRuntime) -> Result<(), Fail> {
    let alloc = rt.alloc();
    let stub = [
        case(
            b"call f i32:0".as_slice(),
            b"returned i32:3\nmemory 2\nend\n".as_slice(),
        ),
        case(
            b"call f i32:1".as_slice(),
            b"trapped Unreachable\nmemory 2\nend\n".as_slice(),
        ),
    ];
    assert!(rt; hold(&rt, alloc, &ONE, &[STUB.as_slice()], &stub));
    let asking = [
        "a.o",
        "-o",
        "out",
        "--no-entry",
        "--export=f",
        "--allow-undefined",
    ];
    let answers = [
        case(
            b"call f i32:4\nanswer i32:40".as_slice(),
            b"asked env h i32:4\nreturned i32:41\nmemory 2\nend\n".as_slice(),
        ),
        case(
            b"call f i32:4\ntrap".as_slice(),
            b"asked env h i32:4\ntrapped HostTrap\nmemory 2\nend\n".as_slice(),
        ),
    ];
    assert!(rt; hold(&rt, alloc, &asking, &[ASKING.as_slice()], &answers));
    Ok(())
}

#[test]
fn constructors_are_told(rt: HostRuntime) -> Result<(), Fail> {
    let alloc = rt.alloc();
    let words = [
        "a.o",
        "-o",
        "out",
        "--no-entry",
        "--export=f",
        "--export=__wasm_call_ctors",
    ];
    let calls = [case(
        b"call f\ncall __wasm_call_ctors\ncall f".as_slice(),
        b"returned i32:0\nreturned\nreturned i32:9\nmemory 2\n00000400 09000000000000000000000000000000\nend\n".as_slice(),
    )];
    assert!(rt; hold(&rt, alloc, &words, &[CONSTRUCTOR.as_slice()], &calls));
    let none = [case(
        b"call __wasm_call_ctors\ncall f".as_slice(),
        b"returned\nreturned i32:7\nmemory 2\nend\n".as_slice(),
    )];
    assert!(rt; hold(&rt, alloc, &words, &[calling_object()], &none));
    let groups = [
        "a.o",
        "b.o",
        "-o",
        "out",
        "--no-entry",
        "--export=__wasm_call_ctors",
    ];
    let once = [case(
        b"call __wasm_call_ctors".as_slice(),
        b"returned\nmemory 2\n00000400 07000000000000000000000000000000\nend\n".as_slice(),
    )];
    assert!(rt;
        hold(
            &rt,
            alloc,
            &groups,
            &[INIT.as_slice(), INIT.as_slice()],
            &once
        )
    );
    Ok(())
}

#[test]
fn dead_functions_are_told(rt: HostRuntime) -> Result<(), Fail> {
    let alloc = rt.alloc();
    let calls = [
        case(
            b"call f".as_slice(),
            b"returned i32:7\nmemory 2\nend\n".as_slice(),
        ),
        case(
            b"call d".as_slice(),
            b"not called\nmemory 2\nend\n".as_slice(),
        ),
    ];
    assert!(rt;
        hold(
            &rt,
            alloc,
            &TWO,
            &[CHAIN.as_slice(), END.as_slice()],
            &calls
        )
    );
    let all = [
        "a.o",
        "b.o",
        "-o",
        "out",
        "--no-entry",
        "--export=f",
        "--no-gc-sections",
    ];
    assert!(rt;
        hold(
            &rt,
            alloc,
            &all,
            &[CHAIN.as_slice(), END.as_slice()],
            &calls
        )
    );
    Ok(())
}

#[test]
fn dead_calls_of_dropped_functions_are_told(rt: HostRuntime) -> Result<(), Fail> {
    let alloc = rt.alloc();
    let calls = [case(
        b"call f i32:0".as_slice(),
        b"returned i32:3\nmemory 2\nend\n".as_slice(),
    )];
    let objects = [STUB.as_slice(), GROUP.as_slice(), GROUP_DEAD.as_slice()];
    assert!(rt; hold(&rt, alloc, &THREE, &objects, &calls));
    Ok(())
}

/// The groups whose local function has the name of the null function.
fn named_as_null() -> ([u8; 111], [u8; 148]) {
    let (mut group, mut dead) = (*GROUP, *GROUP_DEAD);
    group[95] = b'w';
    dead[105] = b'w';
    (group, dead)
}

#[test]
fn dropped_functions_are_no_null_functions(rt: HostRuntime) -> Result<(), Fail> {
    let alloc = rt.alloc();
    let calls = [case(
        b"call f i32:0\ncall f i32:1".as_slice(),
        b"returned i32:3\ntrapped Unreachable\nmemory 2\nend\n".as_slice(),
    )];
    let (group, dead) = named_as_null();
    let objects = [STUB.as_slice(), group.as_slice(), dead.as_slice()];
    assert!(rt; hold(&rt, alloc, &THREE, &objects, &calls));
    Ok(())
}

/// `f` that gives this number, by a symbol of these flags.
fn giving(number: u8, flags: u8) -> [u8; 46] {
    let mut bytes = *GIVING;
    bytes[25] = number;
    bytes[42] = flags;
    bytes
}

#[test]
fn a_name_is_told_of_its_winner(rt: HostRuntime) -> Result<(), Fail> {
    let alloc = rt.alloc();
    let one = [case(
        b"call f".as_slice(),
        b"returned i32:1\nmemory 2\nend\n".as_slice(),
    )];
    let two = [case(
        b"call f".as_slice(),
        b"returned i32:2\nmemory 2\nend\n".as_slice(),
    )];
    let (strong, weak, other) = (giving(1, 0), giving(2, 1), giving(3, 1));
    assert!(rt;
        hold(
            &rt,
            alloc,
            &TWO,
            &[weak.as_slice(), strong.as_slice()],
            &one
        )
    );
    assert!(rt;
        hold(
            &rt,
            alloc,
            &TWO,
            &[strong.as_slice(), weak.as_slice()],
            &one
        )
    );
    assert!(rt; hold(&rt, alloc, &TWO, &[weak.as_slice(), other.as_slice()], &two));
    Ok(())
}

#[test]
fn null_functions_are_told(rt: HostRuntime) -> Result<(), Fail> {
    let alloc = rt.alloc();
    let words = [
        "a.o",
        "-o",
        "out",
        "--no-entry",
        "--export=f",
        "--export=g",
        "--export=h",
    ];
    let calls = [case(
        b"call f i32:1\ncall g i32:1\ncall h i32:6".as_slice(),
        b"trapped Unreachable\ntrapped NullEntry\nreturned i32:6\nmemory 2\nend\n".as_slice(),
    )];
    assert!(rt; hold(&rt, alloc, &words, &[NULL.as_slice()], &calls));
    Ok(())
}

#[test]
fn constructors_are_told_by_priority(rt: HostRuntime) -> Result<(), Fail> {
    let alloc = rt.alloc();
    let words = [
        "a.o",
        "b.o",
        "-o",
        "out",
        "--no-entry",
        "--export=__wasm_call_ctors",
    ];
    let order = [case(
        b"call __wasm_call_ctors\nanswer\nanswer\nanswer".as_slice(),
        b"asked env Q\nasked env R\nasked env P\nreturned\nmemory 2\nend\n".as_slice(),
    )];
    let objects = [LATE_AND_EARLY.as_slice(), EARLY.as_slice()];
    assert!(rt; hold(&rt, alloc, &words, &objects, &order));
    Ok(())
}

#[test]
fn floats_are_carried(rt: HostRuntime) -> Result<(), Fail> {
    let alloc = rt.alloc();
    let float = [case(
        b"call f f64:0".as_slice(),
        b"returned\nmemory 2\nend\n".as_slice(),
    )];
    assert!(rt; hold(&rt, alloc, &ONE, &[FLOAT.as_slice()], &float));
    let carried = [case(
        b"call f".as_slice(),
        b"carried 67,0\nmemory 2\nend\n".as_slice(),
    )];
    assert!(rt; hold(&rt, alloc, &ONE, &[CARRIED.as_slice()], &carried));
    Ok(())
}

/// Whether a call of a local function of a group that another input wins is unresolved.
fn is_unresolved<R: Threads + Sync>(rt: &R, alloc: Global) -> bool {
    match name(alloc, "g") {
        Ok(name) => {
            let fault = Fault::Unresolved { name, input: 3 };
            let objects = [EMPTY.as_slice(), GROUP.as_slice(), GROUP_CALLED.as_slice()];
            fail(rt, alloc, &THREE, &objects, &fault)
        }
        Err(_) => false,
    }
}

#[test]
fn both_have_the_same_fault(rt: HostRuntime) -> Result<(), Fail> {
    let alloc = rt.alloc();
    assert!(rt; is_unresolved(&rt, alloc));
    Ok(())
}
