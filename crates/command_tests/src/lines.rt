//! Lines in a sink in memory, and what a sink has where a write fails.

use link_lines::{CaseSummary, say_case, say_fault, say_read_fault, say_usage};
use std::alloc::Global;
use std::test::Fail;
use wl_base::{Fault, FeatureRule, InvalidAt, OutOfMemory, Seq, Usage};
use wl_outside::{Failed, MemSink, Sink};

// A line of each kind, up to the first write that fails.
fn say_all<E: Sink>(fault: &Fault, say: &mut E) -> Result<(), Failed> {
    say_fault(fault, say)?;
    say_usage(Usage::MissingValue { at: 3 }, say)?;
    say_read_fault(0, say)?;
    let case = CaseSummary {
        objects: 2,
        functions: 3,
        segments: 2,
        bytes: 124,
        sum: 5691,
    };
    say_case(case, say)
}

fn duplicate(alloc: Global) -> Result<Fault, OutOfMemory> {
    Ok(Fault::Duplicate {
        name: Seq::from_slice(alloc, b"f\\ \xff".as_slice())?,
        first: 2,
        other: 5,
    })
}

#[test]
fn lines_come_letter_for_letter(rt: HostRuntime) -> Result<(), Fail> {
    let alloc = rt.alloc();
    let mut sink = MemSink::new(alloc, Seq::new(alloc));
    say_all(&duplicate(alloc)?, &mut sink)?;
    assert_eq!(rt;
        sink.bytes(),
        b"wasmld: duplicate f\\x5C\\x20\\xFF: input 2 and input 5\nwasmld: usage: MissingValue at word 3\nwasmld: cannot read word 0\ncase 2: functions 3 segments 2 bytes 124 sum 5691\n".as_slice()
    );
    Ok(())
}

// A feature that an object goes against.
fn feature(alloc: Global, input: u32, by: u32, rule: FeatureRule) -> Result<Fault, OutOfMemory> {
    Ok(Fault::Feature {
        name: Seq::from_slice(alloc, b"simd128".as_slice())?,
        input,
        by,
        rule,
    })
}

// The lines of what only the words that are to come can answer.
fn say_later<E: Sink>(say: &mut E) -> Result<(), Failed> {
    let at = InvalidAt::Body(4294967295);
    say_fault(&Fault::Invalid { at }, say)?;
    let at = InvalidAt::Module;
    say_fault(&Fault::Invalid { at }, say)?;
    let [input, section] = [2, 11];
    say_fault(&Fault::BadDebug { input, section }, say)?;
    let needed = 2147483648;
    say_fault(&Fault::DebugTooLong { needed }, say)?;
    say_fault(&Fault::NotPartial { file: 3 }, say)?;
    say_fault(&Fault::PartialTooLong { needed }, say)?;
    say_fault(&Fault::Uncalled, say)?;
    say_usage(Usage::PartialClash, say)
}

#[test]
fn lines_of_later_words_come_letter_for_letter(rt: HostRuntime) -> Result<(), Fail> {
    let alloc = rt.alloc();
    let mut sink = MemSink::new(alloc, Seq::new(alloc));
    say_later(&mut sink)?;
    assert_eq!(rt;
        sink.bytes(),
        b"wasmld: invalid output: body 4294967295\nwasmld: invalid output: module\nwasmld: input 2: bad debug section 11\nwasmld: debug sections need 2147483648 bytes\nwasmld: file 3: not an object for a partial link\nwasmld: partial link needs 2147483648 bytes\nwasmld: constructors would not be called: link a start file that calls __wasm_call_ctors\nwasmld: usage: PartialClash\n".as_slice()
    );
    Ok(())
}

#[test]
fn lines_of_features_come_letter_for_letter(rt: HostRuntime) -> Result<(), Fail> {
    let alloc = rt.alloc();
    let mut sink = MemSink::new(alloc, Seq::new(alloc));
    say_fault(&feature(alloc, 2, 1, FeatureRule::Disallowed)?, &mut sink)?;
    say_fault(&feature(alloc, 3, 1, FeatureRule::Required)?, &mut sink)?;
    say_fault(&feature(alloc, 3, 0, FeatureRule::NotAllowed)?, &mut sink)?;
    assert_eq!(rt;
        sink.bytes(),
        b"wasmld: input 2: feature simd128 is disallowed by input 1\nwasmld: input 3: feature simd128 is required by input 1\nwasmld: input 3: feature simd128 is not allowed\n".as_slice()
    );
    Ok(())
}

#[test]
fn a_failing_write_ends_the_line(rt: HostRuntime) -> Result<(), Fail> {
    let alloc = rt.alloc();
    let mut sink = MemSink::new(alloc, Seq::from_slice(alloc, &[6])?);
    assert!(rt; say_all(&duplicate(alloc)?, &mut sink).is_err());
    assert_eq!(rt;
        sink.bytes(),
        b"wasmld: duplicate f\\x5C\\x20\\xFF".as_slice()
    );
    Ok(())
}
