//! The lines of refused links, letter for letter.

use driver_lines::{Naming, say_error, say_refusal, say_warning};
use std::alloc::Global;
use std::test::Fail;
use test_kit::texts;
use wl_base::{Fault, FeatureRule, InvalidAt, Item, LibFault, OutOfMemory, Part, Seq, What};
use wl_outside::MemSink;

/// Whether the fault of a link of two objects and a library's member is told by this text, up to the
/// write that fails.
fn says(alloc: Global, fault: &Fault, failing: &[u32], text: &str) -> Result<bool, OutOfMemory> {
    let inputs = texts(alloc, &["main.o", "./libx.a(m.o)", "g2.o"])?;
    let files = texts(alloc, &["main.o", "./libx.a", "g2.o"])?;
    let naming = Naming {
        program: "wasm-ld",
        entry: Some("_start"),
        inputs: inputs.as_slice(),
        files: files.as_slice(),
    };
    let mut sink = MemSink::new(alloc, Seq::from_slice(alloc, failing)?);
    let told = say_refusal(fault, &naming, &mut sink);
    Ok(told.is_ok() == failing.is_empty() && sink.bytes() == text.as_bytes())
}

/// Whether each fault has its text as its line.
fn are_lines(alloc: Global, lines: &[(Fault, &str)]) -> bool {
    for (fault, text) in lines {
        if says(alloc, fault, &[], text) != Ok(true) {
            return false;
        }
    }
    true
}

/// A fault that tells a name.
#[derive(Clone, Copy)]
enum Named {
    Unresolved(u32),
    IndexLies(u32),
    Clash(u32, u32),
    Duplicate(u32, u32),
    Feature(u32, u32, FeatureRule),
}

fn fault_of(alloc: Global, named: Named, name: &str) -> Result<Fault, OutOfMemory> {
    let name = Seq::from_slice(alloc, name.as_bytes())?;
    Ok(match named {
        Named::Unresolved(input) => Fault::Unresolved { name, input },
        Named::IndexLies(input) => Fault::IndexLies { input, name },
        Named::Clash(first, other) => Fault::Clash { name, first, other },
        Named::Duplicate(first, other) => Fault::Duplicate { name, first, other },
        Named::Feature(input, by, rule) => Fault::Feature {
            name,
            input,
            by,
            rule,
        },
    })
}

/// Whether the fault of this name is told by this text, up to the write that fails.
fn says_name(
    alloc: Global,
    named: Named,
    name: &str,
    failing: &[u32],
    text: &str,
) -> Result<bool, OutOfMemory> {
    let fault = fault_of(alloc, named, name)?;
    says(alloc, &fault, failing, text)
}

/// Whether each name's fault has its text as its line.
fn are_name_lines(alloc: Global, lines: &[(Named, &str, &str)]) -> bool {
    for (named, name, text) in lines {
        if says_name(alloc, *named, name, &[], text) != Ok(true) {
            return false;
        }
    }
    true
}

#[test]
fn symbols_are_told_with_their_inputs(rt: HostRuntime) -> Result<(), Fail> {
    let lines = [
        (
            Named::Unresolved(1),
            "g",
            "wasm-ld: error: main.o: undefined symbol: g\n",
        ),
        (
            Named::Unresolved(2),
            "_ZN1hEv",
            "wasm-ld: error: ./libx.a(m.o): undefined symbol: _ZN1hEv\n",
        ),
        (
            Named::Unresolved(0),
            "_start",
            "wasm-ld: error: entry symbol not defined (pass --no-entry to suppress): _start\n",
        ),
        (
            Named::Unresolved(0),
            "zz",
            "wasm-ld: error: symbol exported via --export not found: zz\n",
        ),
        (
            Named::Duplicate(1, 3),
            "g",
            "wasm-ld: error: duplicate symbol: g\n>>> defined in main.o\n>>> defined in g2.o\n",
        ),
        (
            Named::Duplicate(0, 3),
            "g",
            "wasm-ld: error: duplicate symbol: g\n>>> defined in <internal>\n>>> defined in g2.o\n",
        ),
        (
            Named::Clash(1, 3),
            "g",
            "wasm-ld: error: symbol type mismatch: g\n>>> in main.o\n>>> in g2.o\n",
        ),
        (
            Named::IndexLies(2),
            "f",
            "wasm-ld: error: ./libx.a(m.o): archive index names f, which is not defined\n",
        ),
        (
            Named::Unresolved(4),
            "g",
            "wasm-ld: error: input 4: undefined symbol: g\n",
        ),
        (
            Named::Feature(1, 2, FeatureRule::Disallowed),
            "atomics",
            "wasm-ld: error: Target feature 'atomics' used in main.o is disallowed by ./libx.a(m.o). Use --no-check-features to suppress.\n",
        ),
        (
            Named::Feature(3, 1, FeatureRule::Required),
            "atomics",
            "wasm-ld: error: Missing target feature 'atomics' in g2.o, required by main.o. Use --no-check-features to suppress.\n",
        ),
        (
            Named::Feature(1, 0, FeatureRule::NotAllowed),
            "simd128",
            "wasm-ld: error: Target feature 'simd128' used by main.o is not allowed.\n",
        ),
    ];
    assert!(rt; are_name_lines(rt.alloc(), &lines));
    Ok(())
}

/// The lines of files that aren't linked.
fn file_lines_stand(alloc: Global) -> bool {
    are_lines(
        alloc,
        &[
            (
                Fault::Malformed {
                    input: 3,
                    part: Part::Frame,
                },
                "wasm-ld: error: unknown file type: g2.o\n",
            ),
            (
                Fault::Malformed {
                    input: 2,
                    part: Part::Section(4),
                },
                "wasm-ld: error: ./libx.a(m.o): malformed object: section 4\n",
            ),
            (
                Fault::Malformed {
                    input: 1,
                    part: Part::Cross(7),
                },
                "wasm-ld: error: main.o: constructor functions cannot take arguments\n",
            ),
            (
                Fault::Malformed {
                    input: 1,
                    part: Part::Cross(8),
                },
                "wasm-ld: error: main.o: malformed object: rule 8\n",
            ),
            (
                Fault::Unsupported {
                    input: 1,
                    item: Item::LimitsFlag(4),
                },
                "wasm-ld: error: main.o: unsupported: LimitsFlag(4)\n",
            ),
            (
                Fault::Unsupported {
                    input: 1,
                    item: Item::TagSection,
                },
                "wasm-ld: error: main.o: unsupported: TagSection\n",
            ),
            (
                Fault::TooLong {
                    input: 1,
                    len: 1073741825,
                },
                "wasm-ld: error: main.o: too long: 1073741825 bytes\n",
            ),
            (
                Fault::NotPic {
                    input: 1,
                    symbol: 2,
                    kind: 3,
                },
                "wasm-ld: error: main.o: relocation R_WASM_MEMORY_ADDR_LEB cannot be used against symbol 2; recompile with -fPIC\n",
            ),
            (
                Fault::BadDebug {
                    input: 1,
                    section: 9,
                },
                "wasm-ld: error: main.o: malformed debug section 9\n",
            ),
            (
                Fault::Library {
                    file: 1,
                    fault: LibFault::NoIndex,
                },
                "wasm-ld: error: ./libx.a: archive has no index; run llvm-ranlib to add one\n",
            ),
            (
                Fault::Library {
                    file: 1,
                    fault: LibFault::Thin,
                },
                "wasm-ld: error: ./libx.a: thin archives are not supported\n",
            ),
            (
                Fault::Library {
                    file: 1,
                    fault: LibFault::BadHeader(8),
                },
                "wasm-ld: error: ./libx.a: malformed archive: bad member header at 8\n",
            ),
            (
                Fault::Library {
                    file: 3,
                    fault: LibFault::BadIndex(2),
                },
                "wasm-ld: error: input file 3: malformed archive: bad symbol index (2)\n",
            ),
            (
                Fault::NotPartial { file: 1 },
                "wasm-ld: error: ./libx.a: only object files can be linked with -r, and none from a library\n",
            ),
        ],
    )
}

#[test]
fn files_are_told_by_their_names(rt: HostRuntime) -> Result<(), Fail> {
    assert!(rt; file_lines_stand(rt.alloc()));
    Ok(())
}

/// The lines of what passes a limit, and of an output that isn't valid.
fn number_lines_stand(alloc: Global) -> bool {
    are_lines(
        alloc,
        &[
            (
                Fault::TooMuchInput { len: 4294967296 },
                "wasm-ld: error: too much input: 4294967296 bytes\n",
            ),
            (
                Fault::TooManyInputs { count: 1048576 },
                "wasm-ld: error: too many inputs: 1048576\n",
            ),
            (Fault::TooManyNames, "wasm-ld: error: too many names\n"),
            (
                Fault::Overflow {
                    what: What::MaxMemory,
                    needed: 131072,
                },
                "wasm-ld: error: maximum memory too small, 131072 bytes needed\n",
            ),
            (
                Fault::Overflow {
                    what: What::Reference,
                    needed: -42,
                },
                "wasm-ld: error: relocation out of range: -42\n",
            ),
            (
                Fault::Overflow {
                    what: What::TableSize,
                    needed: 4294967296,
                },
                "wasm-ld: error: table too large, 4294967296 slots needed\n",
            ),
            (
                Fault::Invalid {
                    at: InvalidAt::Module,
                },
                "wasm-ld: error: output is not valid: module\n",
            ),
            (
                Fault::Invalid {
                    at: InvalidAt::Body(17),
                },
                "wasm-ld: error: output is not valid: function 17\n",
            ),
            (
                Fault::DebugTooLong { needed: 2147483648 },
                "wasm-ld: error: output too large with debug sections, 2147483648 bytes needed\n",
            ),
            (
                Fault::PartialTooLong { needed: 1073741825 },
                "wasm-ld: error: output too large, 1073741825 bytes needed\n",
            ),
            (
                Fault::Uncalled,
                "wasm-ld: error: constructors would not be called: link a start file that calls __wasm_call_ctors\n",
            ),
        ],
    )
}

#[test]
fn numbers_that_pass_are_told(rt: HostRuntime) -> Result<(), Fail> {
    assert!(rt; number_lines_stand(rt.alloc()));
    Ok(())
}

/// Whether a text comes as an error and a warning.
fn texts_stand(alloc: Global) -> bool {
    let mut sink = MemSink::new(alloc, Seq::new(alloc));
    say_error("wasm-ld-22", "unknown argument: --frob", &mut sink).is_ok()
        && say_warning("wasm-ld-22", "unknown -z value: x", &mut sink).is_ok()
        && sink.bytes()
            == b"wasm-ld-22: error: unknown argument: --frob\nwasm-ld-22: warning: unknown -z value: x\n".as_slice()
}

#[test]
fn texts_are_errors_and_warnings(rt: HostRuntime) -> Result<(), Fail> {
    assert!(rt; texts_stand(rt.alloc()));
    Ok(())
}

#[test]
fn a_failing_write_ends_the_line(rt: HostRuntime) -> Result<(), Fail> {
    let alloc = rt.alloc();
    assert!(rt;
        says_name(
            alloc,
            Named::Unresolved(1),
            "g",
            &[6],
            "wasm-ld: error: main.o"
        ) == Ok(true)
    );
    Ok(())
}
