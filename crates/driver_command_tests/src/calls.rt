//! Calls by drivers' words: the exit status, what is saved, and both sinks.

use driver_command::drive;
use driver_words::tokens;
use std::alloc::Global;
use std::test::Fail;
use std::thread::Threads;
use test_kit::{
    begun_object, calling_module, calling_object, calls_a_otherwise, defines_a, file, library,
    shelf_of,
};
use wl_base::{OutOfMemory, Seq, Text};
use wl_outside::{MemShelf, MemSink, OpenGate};

// Two objects, a library and a response file, where these calls fail.
fn shelf(alloc: Global, failing: &[u32]) -> Result<MemShelf, OutOfMemory> {
    let mut files = Seq::new(alloc);
    files.push(file(alloc, "a.o", calling_object())?)?;
    files.push(file(alloc, "b.o", calling_object())?)?;
    files.push(file(alloc, "d/libx.a", library())?)?;
    let words = b"a.o -o out\n--no-entry '--export=f' --no-stack-first".as_slice();
    files.push(file(alloc, "words", words)?)?;
    shelf_of(alloc, files, failing)
}

// The words of a line.
fn words_of(alloc: Global, line: &str) -> Result<Seq<Text>, OutOfMemory> {
    let mut words = Seq::new(alloc);
    for word in tokens(alloc, line.as_bytes())?.as_slice() {
        if let Ok(text) = std::str::from_utf8(word.as_slice()) {
            words.push(Text::new(alloc, text)?)?;
        }
    }
    Ok(words)
}

/// The exit status of a call by the words of a line.
pub fn call<R: Threads + Sync>(
    rt: &R,
    alloc: Global,
    line: &str,
    shelf: &mut MemShelf,
    out: &mut MemSink,
    say: &mut MemSink,
) -> Result<u8, OutOfMemory> {
    let words = words_of(alloc, line)?;
    let outcome = drive(
        rt,
        alloc,
        "wasm-ld",
        words.as_slice(),
        shelf,
        out,
        say,
        &OpenGate,
    );
    Ok(outcome.code())
}

fn is_module(found: Option<&[u8]>) -> bool {
    match found {
        Some(found) => found == calling_module(),
        None => false,
    }
}

// Whether a call links the module, where these calls of the shelf fail, and says this.
fn links<R: Threads + Sync>(
    rt: &R,
    alloc: Global,
    line: &str,
    said: &str,
) -> Result<bool, OutOfMemory> {
    let mut shelf = shelf(alloc, &[])?;
    let mut out = MemSink::new(alloc, Seq::new(alloc));
    let mut say = MemSink::new(alloc, Seq::new(alloc));
    let code = call(rt, alloc, line, &mut shelf, &mut out, &mut say)?;
    Ok(
        code == 0
            && is_module(shelf.held("out"))
            && say.bytes() == said.as_bytes()
            && out.bytes().is_empty(),
    )
}

#[test]
fn words_of_drivers_are_linked(rt: HostRuntime) -> Result<(), Fail> {
    let alloc = rt.alloc();
    let cases = [
        ("a.o -o out -s --no-entry --export=f --no-stack-first", ""),
        (
            "-m wasm32 --no-stack-first --export=f -Ld --no-entry -oout a.o -O2 -lx --strip-all",
            "",
        ),
        ("-flavor wasm @words -strip-all", ""),
        (
            "a.o --Map=m -o out -t -s --no-entry --export=f --no-stack-first",
            "wasm-ld: warning: ignored: --Map=m\nwasm-ld: warning: ignored: -t\n",
        ),
    ];
    for (line, said) in cases {
        assert!(rt; links(&rt, alloc, line, said)?, "{line}");
    }
    Ok(())
}

// What is told of `a`, which `other.o` calls as if it gave an integer.
const MISMATCH: &str =
    "wasm-ld: warning: function signature mismatch: a\n>>> defined as () -> i32 in other.o\n>>> defined as () -> void in a.o\n";

// The same where warnings are errors.
const REFUSAL: &str =
    "wasm-ld: error: function signature mismatch: a\n>>> defined as () -> i32 in other.o\n>>> defined as () -> void in a.o\n";

// Whether a call by these words over objects that LLVM's linker knows how to take links anything, or else says this.
fn ends_as<R: Threads + Sync>(
    rt: &R,
    alloc: Global,
    line: &str,
    code: u8,
    said: &str,
) -> Result<bool, OutOfMemory> {
    let mut files = Seq::new(alloc);
    files.push(file(alloc, "other.o", calls_a_otherwise())?)?;
    files.push(file(alloc, "a.o", defines_a())?)?;
    files.push(file(alloc, "begun.o", begun_object())?)?;
    let mut shelf = shelf_of(alloc, files, &[])?;
    let mut out = MemSink::new(alloc, Seq::new(alloc));
    let mut say = MemSink::new(alloc, Seq::new(alloc));
    let ended = call(rt, alloc, line, &mut shelf, &mut out, &mut say)?;
    Ok(
        ended == code
            && shelf.held("out").is_some() == (code == 0)
            && say.bytes() == said.as_bytes(),
    )
}

#[test]
fn an_error_stands_behind_what_is_told(rt: HostRuntime) -> Result<(), Fail> {
    let alloc = rt.alloc();
    let line = "other.o a.o --Map=m -o out --no-entry --export=zz";
    let said =
        "wasm-ld: warning: ignored: --Map=m\nwasm-ld: warning: function signature mismatch: a\n>>> defined as () -> i32 in other.o\n>>> defined as () -> void in a.o\n\nwasm-ld: error: symbol exported via --export not found: zz\n";
    assert!(rt; ends_as(&rt, alloc, line, 1, said)?);
    Ok(())
}

#[test]
fn a_link_is_as_lld_does_it(rt: HostRuntime) -> Result<(), Fail> {
    let alloc = rt.alloc();
    let cases = [
        // a call by another type traps, and is told
        ("other.o a.o -o out --no-entry --export=f", 0u8, MISMATCH),
        ("a.o other.o -o out --no-entry --export=f", 0, MISMATCH),
        ("other.o -o out --no-entry --allow-undefined", 0, ""),
        // and where warnings are errors it refuses the link
        (
            "other.o a.o --fatal-warnings -o out --no-entry --export=f",
            1,
            REFUSAL,
        ),
        ("a.o --fatal-warnings -o out --no-entry", 0, ""),
        // an init function that nothing calls
        (
            "begun.o -o out --no-entry --export=f",
            1,
            "wasm-ld: error: constructors would not be called: link a start file that calls __wasm_call_ctors\n",
        ),
        (
            "begun.o -o out --no-entry --export=f --export=__wasm_call_ctors",
            0,
            "",
        ),
        (
            "begun.o -o out --no-entry --export=__wasm_call_ctors",
            0,
            "",
        ),
        ("begun.o -o out --no-entry --export=i", 0, ""),
    ];
    for (line, code, said) in cases {
        assert!(rt; ends_as(&rt, alloc, line, code, said)?, "{line}");
    }
    Ok(())
}

// Whether a call is refused by this, where this call of the shelf fails, and nothing is saved.
fn refuses<R: Threads + Sync>(
    rt: &R,
    alloc: Global,
    failing: u32,
    line: &str,
    said: &str,
) -> Result<bool, OutOfMemory> {
    let mut shelf = shelf(alloc, &[failing])?;
    let mut out = MemSink::new(alloc, Seq::new(alloc));
    let mut say = MemSink::new(alloc, Seq::new(alloc));
    let code = call(rt, alloc, line, &mut shelf, &mut out, &mut say)?;
    Ok(
        code == 1
            && shelf.held("out").is_none()
            && say.bytes() == said.as_bytes()
            && out.bytes().is_empty(),
    )
}

#[test]
fn refusals_have_their_lines(rt: HostRuntime) -> Result<(), Fail> {
    let alloc = rt.alloc();
    let cases = [
        (
            0u32,
            "a.o -o out --frob",
            "wasm-ld: error: unknown argument: --frob\n",
        ),
        (
            0,
            "a.o -lq -o out",
            "wasm-ld: error: unable to find library -lq\n",
        ),
        (
            0,
            "a.o c.o -o out",
            "wasm-ld: error: cannot open c.o: No such file or directory\n",
        ),
        (
            0,
            "a.o -o out",
            "wasm-ld: error: entry symbol not defined (pass --no-entry to suppress): _start\n",
        ),
        (
            0,
            "a.o b.o -o out --no-entry",
            "wasm-ld: error: duplicate symbol: f\n>>> defined in a.o\n>>> defined in b.o\n",
        ),
        (
            0,
            "a.o --fatal-warnings --Map=m -o out --no-entry",
            "wasm-ld: error: ignored: --Map=m\n",
        ),
        (1, "@words", "wasm-ld: error: cannot open words\n"),
        (2, "@words", "wasm-ld: error: cannot open a.o\n"),
        (3, "@words", "wasm-ld: error: cannot open output file out\n"),
        (
            4,
            "a.o b.o -o out --no-entry",
            "wasm-ld: error: duplicate symbol: f\n>>> defined in input 1\n>>> defined in input 2\n",
        ),
    ];
    for (failing, line, said) in cases {
        assert!(rt;
            refuses(&rt, alloc, failing, line, said)?,
            "{line}, call {failing}"
        );
    }
    Ok(())
}

// The exit status where a text is asked for, and whether the version stands on the output of texts and nothing elsewhere.
fn version<R: Threads + Sync>(
    rt: &R,
    alloc: Global,
    line: &str,
    failing: u32,
) -> Result<(u8, bool), OutOfMemory> {
    let mut shelf = shelf(alloc, &[])?;
    let mut out = MemSink::new(alloc, Seq::from_slice(alloc, &[failing])?);
    let mut say = MemSink::new(alloc, Seq::new(alloc));
    let code = call(rt, alloc, line, &mut shelf, &mut out, &mut say)?;
    let told = out.bytes().starts_with(b"LLD ".as_slice())
        && out.bytes().ends_with(b"\n".as_slice());
    Ok((code, told && say.bytes().is_empty()))
}

#[test]
fn the_version_is_told(rt: HostRuntime) -> Result<(), Fail> {
    let alloc = rt.alloc();
    assert!(rt; version(&rt, alloc, "--version", 0)? == (0, true));
    assert!(rt; version(&rt, alloc, "absent.o -o out -v", 0)? == (0, true));
    assert!(rt; version(&rt, alloc, "--version", 1)? == (1, false));
    Ok(())
}

// The exit status of a link that warns, where the warning can't be written, and whether nothing is said.
fn unheard<R: Threads + Sync>(
    rt: &R,
    alloc: Global,
    line: &str,
) -> Result<(u8, bool), OutOfMemory> {
    let mut shelf = shelf(alloc, &[])?;
    let mut out = MemSink::new(alloc, Seq::new(alloc));
    let mut say = MemSink::new(alloc, Seq::from_slice(alloc, &[1])?);
    let code = call(rt, alloc, line, &mut shelf, &mut out, &mut say)?;
    Ok((code, say.bytes().is_empty()))
}

#[test]
fn a_line_that_cannot_be_written_changes_no_status(rt: HostRuntime) -> Result<(), Fail> {
    let alloc = rt.alloc();
    let linked = "a.o --Map=m -o out --no-entry --export=f";
    assert!(rt; unheard(&rt, alloc, linked)? == (0, true));
    let refused = "a.o --Map=m -o out --no-entry --export=h";
    assert!(rt; unheard(&rt, alloc, refused)? == (1, true));
    Ok(())
}
