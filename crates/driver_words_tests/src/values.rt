//! Names, switches and numbers.

use crate::cases::{File, NONE, Want, all_stand_for};
use std::test::Fail;

#[test]
fn names_and_switches(rt: HostRuntime) -> Result<(), Fail> {
    let cases: [(&[File], &'static str, Want); 20] = [
        (
            NONE,
            "m.o -e f -o o",
            Want::Own("-o o --entry=f --stack-first --keep-debug m.o"),
        ),
        (
            NONE,
            "m.o -ef -oo",
            Want::Own("-o o --entry=f --stack-first --keep-debug m.o"),
        ),
        (
            NONE,
            "m.o --entry=f --no-entry -o o",
            Want::Own("-o o --no-entry --stack-first --keep-debug m.o"),
        ),
        (
            NONE,
            "m.o --no-entry -entry f -o o",
            Want::Own("-o o --entry=f --stack-first --keep-debug m.o"),
        ),
        (
            NONE,
            "m.o -uf --undefined g --undefined=h -u i -o o",
            Want::Own("-o o -u f -u g -u h -u i --stack-first --keep-debug m.o"),
        ),
        (
            NONE,
            "m.o --export a -export=b -o o",
            Want::Own("-o o --export=a --export=b --stack-first --keep-debug m.o"),
        ),
        (
            NONE,
            "m.o -export-all -o o",
            Want::Own("-o o --entry=xport-all --stack-first --keep-debug m.o"),
        ),
        (
            NONE,
            "m.o --export-if-defined=f -o o",
            Want::Own("-o o -u f --export-if-defined=f --stack-first --keep-debug m.o"),
        ),
        (
            NONE,
            "m.o --allow-undefined --export=f -o o",
            Want::Own(
                "-o o -u f --export-if-defined=f --allow-undefined --stack-first --keep-debug m.o",
            ),
        ),
        (
            NONE,
            "m.o --unresolved-symbols=ignore-all --export=f -o o",
            Want::Warned(
                "-o o -u f --export-if-defined=f --stack-first --keep-debug m.o",
                "ignored: --unresolved-symbols=ignore-all\n",
            ),
        ),
        (
            NONE,
            "m.o --import-undefined --export=f -o o",
            Want::Own("-o o --export=f --allow-undefined --stack-first --keep-debug m.o"),
        ),
        (
            NONE,
            "m.o -E -o o",
            Want::Own("-o o --export-dynamic --stack-first --keep-debug m.o"),
        ),
        (
            NONE,
            "m.o --export-dynamic --no-export-dynamic -o o",
            Want::Own("-o o --stack-first --keep-debug m.o"),
        ),
        (
            NONE,
            "m.o --no-gc-sections --gc-sections -o o",
            Want::Own("-o o --stack-first --keep-debug m.o"),
        ),
        (
            NONE,
            "m.o --no-gc-sections -o o",
            Want::Own("-o o --no-gc-sections --stack-first --keep-debug m.o"),
        ),
        (
            NONE,
            "m.o --no-stack-first -o o",
            Want::Own("-o o --keep-debug m.o"),
        ),
        (
            NONE,
            "m.o --stack-first -o o",
            Want::Own("-o o --stack-first --keep-debug m.o"),
        ),
        (
            NONE,
            "m.o --global-base=2048 -o o",
            Want::Own("-o o --global-base=2048 --keep-debug m.o"),
        ),
        (
            NONE,
            "m.o --stack-first --global-base=2048 -o o",
            Want::Line("--global-base cannot be less than stack size when --stack-first is used"),
        ),
        (
            NONE,
            "m.o --stack-first --global-base=131072 -o o",
            Want::Own("-o o --stack-first --global-base=131072 --keep-debug m.o"),
        ),
    ];
    assert!(rt; all_stand_for(rt.alloc(), &cases));
    Ok(())
}

#[test]
fn numbers_and_the_memory(rt: HostRuntime) -> Result<(), Fail> {
    let cases: [(&[File], &'static str, Want); 22] = [
        (
            NONE,
            "m.o --global-base=0 --max-memory=0 --initial-memory=0 -o o",
            Want::Own("-o o --stack-first --keep-debug m.o"),
        ),
        (
            NONE,
            "m.o --global-base=0x400 -o o",
            Want::Line("--global-base=0x400: number expected, but got '0x400'"),
        ),
        (
            NONE,
            "m.o --global-base=0002048 -o o",
            Want::Own("-o o --global-base=2048 --keep-debug m.o"),
        ),
        (
            NONE,
            "m.o --global-base=4294967296 -o o",
            Want::Line("--global-base=4294967296 is too large"),
        ),
        (
            NONE,
            "m.o --initial-memory=65537 -o o",
            Want::Line("--initial-memory must be a multiple of 65536"),
        ),
        (
            NONE,
            "m.o --initial-memory=131072 --no-growable-memory -o o",
            Want::Own(
                "-o o --stack-first --initial-memory=131072 --max-memory=131072 --keep-debug m.o",
            ),
        ),
        (
            NONE,
            "m.o --no-growable-memory -o o",
            Want::Line("--no-growable-memory without --initial-memory is not supported"),
        ),
        (
            NONE,
            "m.o --no-growable-memory --max-memory=65536 -o o",
            Want::Line("--max-memory is incompatible with --no-growable-memory"),
        ),
        (
            NONE,
            "m.o -z stack-size=32768 -zstack-size=65536 -o o",
            Want::Own("-o o --stack-first -z stack-size=65536 --keep-debug m.o"),
        ),
        (
            NONE,
            "m.o -z stack-size=17 -o o",
            Want::Line("-z stack-size must be a multiple of 16"),
        ),
        (
            NONE,
            "m.o -z now -o o",
            Want::Warned(
                "-o o --stack-first --keep-debug m.o",
                "unknown -z value: now\n",
            ),
        ),
        (
            NONE,
            "m.o -z now --fatal-warnings -o o",
            Want::Line("unknown -z value: now"),
        ),
        (
            NONE,
            "m.o --no-fatal-warnings --fatal-warnings -o o",
            Want::Strict("-o o --stack-first --keep-debug m.o"),
        ),
        (
            NONE,
            "m.o --fatal-warnings --no-fatal-warnings -o o",
            Want::Own("-o o --stack-first --keep-debug m.o"),
        ),
        (
            NONE,
            "m.o --threads=100 -o o",
            Want::Own("-o o --stack-first --threads=64 --keep-debug m.o"),
        ),
        (
            NONE,
            "m.o --threads=0 -o o",
            Want::Line("--threads: expected a positive integer, but got '0'"),
        ),
        (
            NONE,
            "m.o --threads 2 -o o",
            Want::Own("-o o --stack-first --threads=2 --keep-debug m.o"),
        ),
        (
            NONE,
            "m.o --import-memory -o o",
            Want::Own("-o o --import-memory --stack-first --keep-debug m.o"),
        ),
        (
            NONE,
            "m.o --import-memory=env,memory -o o",
            Want::Own("-o o --import-memory --stack-first --keep-debug m.o"),
        ),
        (
            NONE,
            "m.o --import-memory=memory -o o",
            Want::Own("-o o --import-memory --stack-first --keep-debug m.o"),
        ),
        (
            NONE,
            "m.o --import-memory=env,mem -o o",
            Want::Line("--import-memory=env,mem is not supported: the memory is env.memory"),
        ),
        (
            NONE,
            "m.o --import-memory --export-memory -o o",
            Want::Line("--import-memory with --export-memory is not supported"),
        ),
    ];
    assert!(rt; all_stand_for(rt.alloc(), &cases));
    Ok(())
}

#[test]
fn words_that_strip(rt: HostRuntime) -> Result<(), Fail> {
    let cases: [(&[File], &'static str, Want); 9] = [
        (NONE, "m.o -s -o o", Want::Own("-o o --stack-first m.o")),
        (NONE, "m.o -S -o o", Want::Own("-o o --stack-first m.o")),
        (
            NONE,
            "--strip-all m.o -o o",
            Want::Own("-o o --stack-first m.o"),
        ),
        (
            NONE,
            "m.o -o o -strip-all",
            Want::Own("-o o --stack-first m.o"),
        ),
        (
            NONE,
            "m.o --strip-debug -o o",
            Want::Own("-o o --stack-first m.o"),
        ),
        (
            NONE,
            "-strip-debug m.o -o o",
            Want::Own("-o o --stack-first m.o"),
        ),
        (
            NONE,
            "m.o --strip-debug -o o --keep-section=.debug_info",
            Want::Own("-o o --stack-first m.o"),
        ),
        (
            NONE,
            "m.o -o o --compress-relocations",
            Want::Own("-o o --stack-first --keep-debug m.o"),
        ),
        (NONE, "m.o --s -o o", Want::Line("unknown argument: --s")),
    ];
    assert!(rt; all_stand_for(rt.alloc(), &cases));
    Ok(())
}
