//! Words of compiler drivers and build systems, and what they stand for.

use crate::cases::{File, NONE, Want, all_stand_for};
use driver_words::What;
use std::test::Fail;

/// The libraries of Debian's wasi-libc of 2022, whose `crt1-command.o` doesn't call the constructors.
const SYSROOT: &[File] = &[
    ("SR/crt1-command.o", ""),
    ("SR/crt1.o", ""),
    ("SR/crt1-reactor.o", ""),
    ("SR/libc.a", ""),
    ("SR/libm.a", ""),
    ("SR/libpthread.a", ""),
    ("SR/libc++.a", ""),
    ("SR/libc++abi.a", ""),
];

/// The folder of Rust 1.63, whose start file stands without a `crt1.o`, and the libraries of wasi-libc.
const RUST_AND_SYSROOT: &[File] = &[
    ("RS/self-contained/crt1-command.o", ""),
    ("RS/self-contained/libc.a", ""),
    ("SR/crt1-command.o", ""),
    ("SR/crt1.o", ""),
    ("SR/crt1-reactor.o", ""),
    ("SR/libc.a", ""),
    ("SR/libm.a", ""),
    ("SR/libpthread.a", ""),
    ("SR/libc++.a", ""),
    ("SR/libc++abi.a", ""),
];

/// A start file that calls the constructors.
const LATER_START_FILE: &[File] = &[("crt1-command.o", "call __wasm_call_ctors")];

/// The libraries of wasi-libc, and one that cmake made.
const CMAKE_FILES: &[File] = &[
    ("SR/crt1-command.o", ""),
    ("SR/crt1.o", ""),
    ("SR/crt1-reactor.o", ""),
    ("SR/libc.a", ""),
    ("SR/libm.a", ""),
    ("SR/libpthread.a", ""),
    ("SR/libc++.a", ""),
    ("SR/libc++abi.a", ""),
    ("libcore.a", ""),
];

/// The libraries of wasi-libc, and a thin one that meson made.
const MESON_FILES: &[File] = &[
    ("SR/crt1-command.o", ""),
    ("SR/crt1.o", ""),
    ("SR/crt1-reactor.o", ""),
    ("SR/libc.a", ""),
    ("SR/libm.a", ""),
    ("SR/libpthread.a", ""),
    ("SR/libc++.a", ""),
    ("SR/libc++abi.a", ""),
    (
        "libcore.a",
        "!<thin>\n/               0           0     0     644     4         `\n\0\0\0\0//              0           0     0     644     38        `\nlibcore.a.p/a.c.o/\nlibcore.a.p/b.c.o/\n/0              0           0     0     644     100       `\n/19             0           0     0     644     100       `\n",
    ),
];

#[test]
fn words_of_clang(rt: HostRuntime) -> Result<(), Fail> {
    let cases: [(&[File], &'static str, Want); 16] = [
        (
            SYSROOT,
            "-m wasm32 -LSR SR/crt1-command.o m-1.o -lc RT/libclang_rt.builtins-wasm32.a -o m",
            Want::Own(
                "-o m --stack-first --keep-debug SR/crt1.o m-1.o SR/libc.a RT/libclang_rt.builtins-wasm32.a",
            ),
        ),
        (
            SYSROOT,
            "-m wasm32 -LSR SR/crt1-command.o m-1.o -lc++ -lc++abi -lc RT/libclang_rt.builtins-wasm32.a -o m",
            Want::Own(
                "-o m --stack-first --keep-debug SR/crt1.o m-1.o SR/libc++.a SR/libc++abi.a SR/libc.a RT/libclang_rt.builtins-wasm32.a",
            ),
        ),
        (
            SYSROOT,
            "-m wasm32 -LSR SR/crt1-command.o m-1.o -lc RT/libclang_rt.builtins-wasm32.a -o m --keep-section=target_features",
            Want::Own(
                "-o m --stack-first --keep-debug SR/crt1.o m-1.o SR/libc.a RT/libclang_rt.builtins-wasm32.a",
            ),
        ),
        (
            SYSROOT,
            "-m wasm32 -LSR SR/crt1-reactor.o --entry _initialize m-1.o -lc RT/libclang_rt.builtins-wasm32.a -o m",
            Want::Own(
                "-o m --entry=_initialize --stack-first --keep-debug SR/crt1-reactor.o m-1.o SR/libc.a RT/libclang_rt.builtins-wasm32.a",
            ),
        ),
        (
            SYSROOT,
            "-m wasm32 --strip-all -LSR SR/crt1-command.o m-1.o -lc RT/libclang_rt.builtins-wasm32.a -o m",
            Want::Own(
                "-o m --stack-first SR/crt1.o m-1.o SR/libc.a RT/libclang_rt.builtins-wasm32.a",
            ),
        ),
        (
            SYSROOT,
            "-m wasm32 -LSR/llvm-lto/22.1.8 -LSR SR/crt1-command.o m-1.o -lc RT/libclang_rt.builtins-wasm32.a -o m --keep-section=target_features",
            Want::Own(
                "-o m --stack-first --keep-debug SR/crt1.o m-1.o SR/libc.a RT/libclang_rt.builtins-wasm32.a",
            ),
        ),
        (
            SYSROOT,
            "-m wasm32 -Lfoo -u g -LSR SR/crt1-command.o -lm --export=f -z stack-size=65536 m-1.o -lc RT/libclang_rt.builtins-wasm32.a -o m",
            Want::Own(
                "-o m -u g --export=f --stack-first -z stack-size=65536 --keep-debug SR/crt1.o SR/libm.a m-1.o SR/libc.a RT/libclang_rt.builtins-wasm32.a",
            ),
        ),
        (
            SYSROOT,
            "-m wasm32 -Llib --no-entry m-1.o -o m",
            Want::Own("-o m --no-entry --stack-first --keep-debug m-1.o"),
        ),
        (
            SYSROOT,
            "-m wasm32 -LSR m-1.o -o m",
            Want::Own("-o m --stack-first --keep-debug m-1.o"),
        ),
        (
            SYSROOT,
            "-m wasm32 -Llib crt1.o m-1.o -lc RT/libclang_rt.builtins.a -o m",
            Want::Line("unable to find library -lc"),
        ),
        (
            SYSROOT,
            "-m wasm32 -LSR SR/crt1-command.o m-1.o --shared-memory -lpthread -lc RT/libclang_rt.builtins-wasm32.a -o m",
            Want::Line("--shared-memory is not supported"),
        ),
        (
            SYSROOT,
            "-m wasm32 -LSR SR/crt1-reactor.o --entry _initialize -shared m-1.o -lc RT/libclang_rt.builtins-wasm32.a -o m",
            Want::Own(
                "-o m --entry=_initialize --export-dynamic --stack-first -shared --keep-debug SR/crt1-reactor.o m-1.o SR/libc.a RT/libclang_rt.builtins-wasm32.a",
            ),
        ),
        (
            SYSROOT,
            "-m wasm32 -LSR SR/crt1-command.o -r m-1.o -lc RT/libclang_rt.builtins-wasm32.a -o m",
            Want::Own(
                "-o m --stack-first -r --keep-debug SR/crt1.o m-1.o SR/libc.a RT/libclang_rt.builtins-wasm32.a",
            ),
        ),
        (
            SYSROOT,
            "-m wasm32 -LSR -r m-1.o m-2.o -o m.o",
            Want::Own("-o m.o --stack-first -r --keep-debug m-1.o m-2.o"),
        ),
        (
            SYSROOT,
            "-m wasm64 -Llib crt1.o m-1.o -lc -o m",
            Want::Line("wasm64 is not supported"),
        ),
        (
            SYSROOT,
            "-m wasm32 -LSR SR/crt1-command.o --version -lc RT/libclang_rt.builtins-wasm32.a -o a.out",
            Want::Said(What::Version),
        ),
    ];
    assert!(rt; all_stand_for(rt.alloc(), &cases));
    Ok(())
}

#[test]
fn words_of_rustc_with_std(rt: HostRuntime) -> Result<(), Fail> {
    let cases: [(&[File], &'static str, Want); 3] = [
        (
            RUST_AND_SYSROOT,
            "-flavor wasm --rsp-quoting=posix --export main --export=__heap_base --export=__data_end -z stack-size=1048576 --stack-first --allow-undefined --fatal-warnings --no-demangle RS/self-contained/crt1-command.o out.0.rcgu.o -L RS RS/libstd-4c9b5ef9118fade6.rlib -l c RS/libcompiler_builtins-ff43c8a965848b40.rlib -L RS -L RS/self-contained -o out.wasm --gc-sections -O2",
            Want::Line(
                "RS/self-contained/crt1-command.o: constructors would not be called, and there is no crt1.o beside it or in a folder of -L",
            ),
        ),
        (
            RUST_AND_SYSROOT,
            "-flavor wasm --rsp-quoting=posix --export main -z stack-size=1048576 --stack-first --allow-undefined --fatal-warnings --no-demangle RS/self-contained/crt1-command.o out.0.rcgu.o -L RS -l c -L RS/self-contained -LSR -o out.wasm --gc-sections -O2",
            Want::Strict(
                "-o out.wasm -u main --export-if-defined=main --allow-undefined --stack-first -z stack-size=1048576 --keep-debug SR/crt1.o out.0.rcgu.o RS/self-contained/libc.a",
            ),
        ),
        (
            NONE,
            "-flavor wasm --rsp-quoting=posix --export triple --export=__heap_base --export=__data_end -z stack-size=1048576 --stack-first --allow-undefined --fatal-warnings --no-demangle --no-entry --export-dynamic out.lib.0.rcgu.o -L r/lib r/lib/libstd-9.rlib -o out.wasm --gc-sections --no-entry -O2 --strip-all",
            Want::Strict(
                "-o out.wasm --no-entry -u triple --export-if-defined=triple -u __heap_base --export-if-defined=__heap_base -u __data_end --export-if-defined=__data_end --export-dynamic --allow-undefined --stack-first -z stack-size=1048576 out.lib.0.rcgu.o r/lib/libstd-9.rlib",
            ),
        ),
    ];
    assert!(rt; all_stand_for(rt.alloc(), &cases));
    Ok(())
}

#[test]
fn words_of_rustc_without(rt: HostRuntime) -> Result<(), Fail> {
    let cases: [(&[File], &'static str, Want); 4] = [
        (
            LATER_START_FILE,
            "-flavor wasm --export main -z stack-size=1048576 --stack-first --allow-undefined --no-demangle crt1-command.o o.rcgu.o -L r/self-contained -o o.wasm --gc-sections -O3",
            Want::Own(
                "-o o.wasm -u main --export-if-defined=main --allow-undefined --stack-first -z stack-size=1048576 --keep-debug crt1-command.o o.rcgu.o",
            ),
        ),
        (
            NONE,
            "-flavor wasm --export main --export=__heap_base --export=__data_end -z stack-size=1048576 --stack-first --allow-undefined --no-demangle --no-entry o.rcgu.o -L r/self-contained -o o.wasm --gc-sections --no-entry -O3",
            Want::Own(
                "-o o.wasm --no-entry -u main --export-if-defined=main -u __heap_base --export-if-defined=__heap_base -u __data_end --export-if-defined=__data_end --allow-undefined --stack-first -z stack-size=1048576 --keep-debug o.rcgu.o",
            ),
        ),
        (
            NONE,
            "-flavor wasm --export main -z stack-size=1048576 --stack-first --allow-undefined --no-demangle --import-memory --export-memory --shared-memory --max-memory=1073741824 crt1-command.o o.rcgu.o -o o.wasm --gc-sections -O3",
            Want::Line("--shared-memory is not supported"),
        ),
        (
            NONE,
            "-flavor wasm --export main -z stack-size=1048576 --stack-first --allow-undefined --no-demangle --no-entry -mwasm64 o.rcgu.o -o o.wasm --gc-sections -O3",
            Want::Line("wasm64 is not supported"),
        ),
    ];
    assert!(rt; all_stand_for(rt.alloc(), &cases));
    Ok(())
}

#[test]
fn words_of_build_systems(rt: HostRuntime) -> Result<(), Fail> {
    let cases: [(&[File], &'static str, Want); 2] = [
        (
            CMAKE_FILES,
            "-m wasm32 -LSR SR/crt1-command.o CMakeFiles/demo.dir/main.cpp.obj libcore.a -lm -lc++ -lc++abi -lc RT/libclang_rt.builtins-wasm32.a -o demo.wasm --keep-section=target_features",
            Want::Own(
                "-o demo.wasm --stack-first --keep-debug SR/crt1.o CMakeFiles/demo.dir/main.cpp.obj libcore.a SR/libm.a SR/libc++.a SR/libc++abi.a SR/libc.a RT/libclang_rt.builtins-wasm32.a",
            ),
        ),
        (
            MESON_FILES,
            "-m wasm32 -LSR SR/crt1-command.o demo.p/main.cpp.o --as-needed --no-undefined --start-group libcore.a -lm --end-group -lc++ -lc++abi -lc RT/libclang_rt.builtins-wasm32.a -o demo",
            Want::Own(
                "-o demo --stack-first --keep-debug SR/crt1.o demo.p/main.cpp.o --start-lib libcore.a.p/a.c.o libcore.a.p/b.c.o --end-lib SR/libm.a SR/libc++.a SR/libc++abi.a SR/libc.a RT/libclang_rt.builtins-wasm32.a",
            ),
        ),
    ];
    assert!(rt; all_stand_for(rt.alloc(), &cases));
    Ok(())
}
