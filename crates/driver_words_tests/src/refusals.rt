//! Marks and words that are told of, words that end the translation, and words of partial links and of shared outputs.

use crate::cases::{File, NONE, Want, all_stand_for};
use driver_words::What;
use std::test::Fail;

#[test]
fn marks_and_words_that_are_told_of(rt: HostRuntime) -> Result<(), Fail> {
    let cases: [(&[File], &'static str, Want); 20] = [
        (
            NONE,
            "m.o --export-memory=memory -o o",
            Want::Own("-o o --stack-first --keep-debug m.o"),
        ),
        (
            NONE,
            "m.o --export-memory=mem -o o",
            Want::Line("--export-memory=mem is not supported: the memory is exported as memory"),
        ),
        (
            NONE,
            "m.o --export-table -o o",
            Want::Own("-o o --export-table --stack-first --keep-debug m.o"),
        ),
        (
            NONE,
            "m.o --start-lib a.o -o o",
            Want::Own("-o o --stack-first --keep-debug m.o --start-lib a.o --end-lib"),
        ),
        (NONE, "m.o --end-lib -o o", Want::Line("stray --end-lib")),
        (
            NONE,
            "m.o --start-lib a.o --start-lib -o o",
            Want::Line("nested --start-lib"),
        ),
        (
            NONE,
            "m.o --whole-archive a.a --no-whole-archive b.a -o o",
            Want::Own(
                "-o o --stack-first --keep-debug m.o --whole-archive a.a --no-whole-archive b.a",
            ),
        ),
        (
            NONE,
            "m.o --table-base=1 -o o",
            Want::Own("-o o --stack-first --keep-debug m.o"),
        ),
        (
            NONE,
            "m.o --table-base=2 -o o",
            Want::Line("--table-base=2 is not supported: the table begins at 1"),
        ),
        (
            NONE,
            "m.o --initial-heap=0 -o o",
            Want::Own("-o o --stack-first --keep-debug m.o"),
        ),
        (
            NONE,
            "m.o --initial-heap=65536 -o o",
            Want::Line("--initial-heap=65536 is not supported: use --initial-memory"),
        ),
        (
            NONE,
            "m.o --page-size=65536 -o o",
            Want::Own("-o o --stack-first --keep-debug m.o"),
        ),
        (
            NONE,
            "m.o --page-size=1 -o o",
            Want::Line("--page-size=1 is not supported: pages have 65536 bytes"),
        ),
        (
            NONE,
            "m.o --Map=m.txt -M -t -y f --trace-symbol=g --build-id=sha1 --why-extract=w --reproduce=r.tar --print-gc-sections -o o",
            Want::Warned(
                "-o o --stack-first --keep-debug m.o",
                "ignored: --Map=m.txt\nignored: -M\nignored: -t\nignored: -y\nignored: --trace-symbol=g\nignored: --build-id=sha1\nignored: --why-extract=w\nignored: --reproduce=r.tar\nignored: --print-gc-sections\n",
            ),
        ),
        (
            NONE,
            "m.o --allow-undefined-file=syms.txt -o o",
            Want::Warned(
                "-o o --stack-first --keep-debug m.o",
                "ignored: --allow-undefined-file=syms.txt\n",
            ),
        ),
        (
            NONE,
            "m.o --export-all -o o",
            Want::Line("--export-all is not supported"),
        ),
        (
            NONE,
            "m.o --growable-table -o o",
            Want::Line("--growable-table is not supported"),
        ),
        (
            NONE,
            "m.o --import-table -o o",
            Want::Line("--import-table is not supported"),
        ),
        (
            NONE,
            "m.o --wrap=f -o o",
            Want::Line("--wrap=f is not supported"),
        ),
        (
            NONE,
            "m.o --emit-relocs -o o",
            Want::Line("--emit-relocs is not supported"),
        ),
    ];
    assert!(rt; all_stand_for(rt.alloc(), &cases));
    Ok(())
}

#[test]
fn words_that_end_the_translation(rt: HostRuntime) -> Result<(), Fail> {
    let cases: [(&[File], &'static str, Want); 14] = [
        (NONE, "m.o -pie -o o", Want::Line("-pie is not supported")),
        (
            NONE,
            "m.o --frob -o o",
            Want::Line("unknown argument: --frob"),
        ),
        (NONE, "m.o -- -o o", Want::Line("unknown argument: --")),
        (
            NONE,
            "m.o -m elf32 -o o",
            Want::Line("invalid target architecture: elf32"),
        ),
        (NONE, "m.o", Want::Line("no output file specified")),
        (NONE, "-o o", Want::Line("no input files")),
        (NONE, "m.o -o", Want::Line("-o: missing argument")),
        (NONE, "m.o -o -", Want::Line("-o - is not supported")),
        (
            NONE,
            "m.o --unresolved-symbols=x -o o",
            Want::Line("unknown --unresolved-symbols value: x"),
        ),
        (NONE, "--version", Want::Said(What::Version)),
        (NONE, "m.o -v -o o", Want::Said(What::Version)),
        (NONE, "--help", Want::Said(What::Help)),
        (
            NONE,
            "-flavor gnu m.o -o o",
            Want::Line("unknown flavor: gnu"),
        ),
        (
            NONE,
            "m.o -O2 -O 0 --lto-O3 --lto-CGO2 --lto-partitions=4 --thinlto-jobs=2 --thinlto-cache-dir=c --thinlto-cache-policy p -mllvm -x --mllvm=-y --save-temps --disable-verify --color-diagnostics --color-diagnostics=always --no-demangle --error-limit=0 --features=a,b --extra-features=c --no-check-features --compress-relocations --keep-section=k --soname=s --rpath=r -Bsymbolic --no-pie --verbose -S -s -o o",
            Want::Own("-o o --stack-first m.o"),
        ),
    ];
    assert!(rt; all_stand_for(rt.alloc(), &cases));
    Ok(())
}

#[test]
fn words_of_partial_links(rt: HostRuntime) -> Result<(), Fail> {
    let cases: [(&[File], &'static str, Want); 14] = [
        (
            NONE,
            "m.o --relocatable -S -o o",
            Want::Own("-o o --stack-first -r m.o"),
        ),
        (
            NONE,
            "-relocatable m.o -o o --no-entry --no-gc-sections --threads=2",
            Want::Own(
                "-o o --no-entry --no-gc-sections --stack-first --threads=2 -r --keep-debug m.o",
            ),
        ),
        (
            NONE,
            "m.o -r --gc-sections --entry=f -o o --no-gc-sections --no-entry",
            Want::Own("-o o --no-entry --no-gc-sections --stack-first -r --keep-debug m.o"),
        ),
        (
            NONE,
            "m.o -r --start-lib a.o --end-lib --export=f -o o",
            Want::Own(
                "-o o --export=f --stack-first -r --keep-debug m.o --start-lib a.o --end-lib",
            ),
        ),
        (NONE, "m.o --r -o o", Want::Line("unknown argument: --r")),
        (NONE, "m.o -r", Want::Line("no output file specified")),
        (NONE, "-r -o o", Want::Line("no input files")),
        (
            NONE,
            "m.o -r --entry=f -o o",
            Want::Line("entry point specified for relocatable output file"),
        ),
        (
            NONE,
            "m.o -e f -r -o o",
            Want::Line("entry point specified for relocatable output file"),
        ),
        (
            NONE,
            "m.o -r --gc-sections -o o",
            Want::Line("-r and --gc-sections may not be used together"),
        ),
        (
            NONE,
            "-u f m.o -r -o o",
            Want::Line("-r and --undefined may not be used together"),
        ),
        (
            NONE,
            "m.o -r --export-table -o o",
            Want::Line("--relocatable is incompatible with --export-table"),
        ),
        (
            NONE,
            "m.o -r --initial-memory=1 -o o",
            Want::Line("--initial-memory must be a multiple of 65536"),
        ),
        (
            NONE,
            "m.o -r -shared -o o",
            Want::Line("-r and -shared may not be used together"),
        ),
    ];
    assert!(rt; all_stand_for(rt.alloc(), &cases));
    Ok(())
}

#[test]
fn words_of_shared_outputs(rt: HostRuntime) -> Result<(), Fail> {
    let cases: [(&[File], &'static str, Want); 10] = [
        (
            NONE,
            "-shared a.o -o b",
            Want::Own("-o b --export-dynamic --stack-first -shared --keep-debug a.o"),
        ),
        (
            NONE,
            "m.o --no-export-dynamic --shared -s -o o",
            Want::Own("-o o --stack-first -shared m.o"),
        ),
        (
            NONE,
            "m.o -shared --no-export-dynamic -E -o o",
            Want::Own("-o o --export-dynamic --stack-first -shared --keep-debug m.o"),
        ),
        (
            NONE,
            "m.o -shared -shared --no-entry --export=f --experimental-pic -Bsymbolic -o o",
            Want::Own(
                "-o o --no-entry --export=f --export-dynamic --stack-first -shared --keep-debug m.o",
            ),
        ),
        (
            NONE,
            "m.o -shared --unresolved-symbols=import-dynamic -o o",
            Want::Warned(
                "-o o --export-dynamic --stack-first -shared --keep-debug m.o",
                "ignored: --unresolved-symbols=import-dynamic\n",
            ),
        ),
        (NONE, "m.o -shared", Want::Line("no output file specified")),
        (NONE, "-shared -o o", Want::Line("no input files")),
        (
            NONE,
            "m.o -shared=f -o o",
            Want::Line("unknown argument: -shared=f"),
        ),
        (
            NONE,
            "m.o -shared -pie -o o",
            Want::Line("-pie is not supported"),
        ),
        (
            NONE,
            "m.o -shared -relocatable --no-entry -o o",
            Want::Line("-r and -shared may not be used together"),
        ),
    ];
    assert!(rt; all_stand_for(rt.alloc(), &cases));
    Ok(())
}
