//! What words ask of the sections behind the module for tools: names and features.

use crate::cases::{File, NONE, Want, all_stand_for};
use std::test::Fail;

#[test]
fn words_on_sections(rt: HostRuntime) -> Result<(), Fail> {
    let cases: [(&[File], &'static str, Want); 14] = [
        (NONE, "m.o -o o", Want::Asked("names checked kept")),
        (NONE, "m.o -o o -s", Want::Asked("no names checked")),
        (NONE, "m.o -o o -S", Want::Asked("names checked kept")),
        (
            NONE,
            "--strip-debug m.o -o o",
            Want::Asked("names checked kept"),
        ),
        (
            NONE,
            "-m wasm32 --strip-all m.o -o o --keep-section=target_features",
            Want::Asked("no names checked kept"),
        ),
        (
            NONE,
            "m.o --strip-all -keep-section name -o o",
            Want::Asked("names checked"),
        ),
        (
            NONE,
            "m.o -s --keep-section name --keep-section=producers --keep-section=target_features -o o",
            Want::Asked("names checked kept"),
        ),
        (
            NONE,
            "m.o -S -s --keep-section=names -o o",
            Want::Asked("no names checked"),
        ),
        (
            NONE,
            "m.o -shared -o o",
            Want::Asked("names checked +mutable-globals kept"),
        ),
        (
            NONE,
            "m.o -shared -s --extra-features=a -o o",
            Want::Asked("no names checked +mutable-globals +a"),
        ),
        (NONE, "m.o -r -o o", Want::Asked("no names nor features")),
        (
            NONE,
            "m.o -r --features=a --keep-section=name -o o",
            Want::Asked("no names nor features"),
        ),
        (
            NONE,
            "m.o --keep-section -o o",
            Want::Line("no output file specified"),
        ),
        (
            NONE,
            "m.o -o o --keep-section",
            Want::Line("--keep-section: missing argument"),
        ),
    ];
    assert!(rt; all_stand_for(rt.alloc(), &cases));
    Ok(())
}

#[test]
fn words_on_features(rt: HostRuntime) -> Result<(), Fail> {
    let cases: [(&[File], &'static str, Want); 10] = [
        (
            NONE,
            "m.o --features=simd128,sign-ext -o o",
            Want::Asked("names checked allowed simd128 sign-ext kept"),
        ),
        (
            NONE,
            "m.o -features=,simd128,,sign-ext, -o o",
            Want::Asked("names checked allowed simd128 sign-ext kept"),
        ),
        (
            NONE,
            "m.o --features= -o o",
            Want::Asked("names checked allowed kept"),
        ),
        (
            NONE,
            "m.o --features=a,b --features=c -o o",
            Want::Asked("names checked allowed c kept"),
        ),
        (
            NONE,
            "m.o --extra-features=a,b -extra-features=c,c -o o",
            Want::Asked("names checked +c +c kept"),
        ),
        (
            NONE,
            "m.o --extra-features=a --extra-features= -o o",
            Want::Asked("names checked kept"),
        ),
        (
            NONE,
            "m.o --no-check-features --features=a -o o",
            Want::Asked("names allowed a kept"),
        ),
        (
            NONE,
            "m.o --no-check-features --check-features -o o",
            Want::Asked("names checked kept"),
        ),
        (
            NONE,
            "m.o --features a -o o",
            Want::Line("unknown argument: --features"),
        ),
        (
            NONE,
            "m.o --no-check-features=1 -o o",
            Want::Line("unknown argument: --no-check-features=1"),
        ),
    ];
    assert!(rt; all_stand_for(rt.alloc(), &cases));
    Ok(())
}
