//! Words of the command line: the plan that they ask for, and those that have none.

use link_words::{Plan, WordError, read_words};
use std::alloc::Global;
use std::test::Fail;
use wl_base::{Name, OutOfMemory, Seq, Text, Usage};

// The words of a line.
fn words_of(alloc: Global, line: &str) -> Result<Seq<Text>, OutOfMemory> {
    let mut words = Seq::new(alloc);
    for word in line.split_whitespace() {
        words.push(Text::new(alloc, word)?)?;
    }
    Ok(words)
}

// The plan of the words of a line.
fn plan_of(alloc: Global, line: &str) -> Result<Plan, WordError> {
    let words = words_of(alloc, line)?;
    if words.len() >= 100 {
        return Err(WordError::OutOfMemory);
    }
    read_words(alloc, words.as_slice())
}

// Why the words of a line have no plan.
fn usage_of(alloc: Global, line: &str) -> Option<Usage> {
    match plan_of(alloc, line) {
        Err(WordError::Usage(usage)) => Some(usage),
        _ => None,
    }
}

// Whether the plan has these inputs, each with its place and whether it is lazy and whole.
fn has_inputs(plan: &Plan, inputs: &[(u32, bool, bool)]) -> bool {
    plan.inputs.len() == inputs.len()
        && plan.inputs.as_slice().iter().zip(inputs.iter()).all(|(input, (place, lazy, whole))| {
            input.place == *place && input.lazy == *lazy && input.whole == *whole
        })
}

// Whether the first name of a list is this.
fn begins_with(names: &Seq<Name>, name: &str) -> bool {
    match names.get(0) {
        Some(first) => first.as_slice() == name.as_bytes(),
        None => false,
    }
}

// Whether the plan has this output and this entry.
fn has_ends(plan: &Plan, output: &str, entry: &str) -> bool {
    match (&plan.output, &plan.entry) {
        (Some(text), Some(name)) => {
            text.as_str() == output && name.as_slice() == entry.as_bytes()
        }
        _ => false,
    }
}

#[test]
fn words_at_fault_have_no_plan(rt: HostRuntime) {
    for (line, usage) in [
        ("", Usage::NoInput),
        ("a.o", Usage::NoOutput),
        ("a.o --threads=65 -o b", Usage::BadThreads { at: 1 }),
        ("a.o --frob -o b", Usage::UnknownOption { at: 1 }),
        ("a.o -z stack-size=8", Usage::BadNumber { at: 1 }),
        ("a.o -o b --threads", Usage::MissingValue { at: 3 }),
        ("--start-lib a.o -o b", Usage::OpenGroup { at: 0 }),
        ("-- -x -o", Usage::NoOutput),
        ("--make-case=2 a.o", Usage::CaseAndInput),
        ("-r -o b", Usage::NoInput),
        ("a.o -r", Usage::NoOutput),
        ("a.o -r=b", Usage::UnknownOption { at: 1 }),
        ("a.o -r -o b -z stack-size=8", Usage::BadNumber { at: 4 }),
        ("--make-case=2 -r a.o", Usage::CaseAndInput),
        ("--make-case=2 -r", Usage::PartialClash),
        ("-r --make-case=2 -o b", Usage::PartialClash),
        ("a.o -o r -r -shared", Usage::PartialClash),
    ] {
        assert!(rt; usage_of(rt.alloc(), line) == Some(usage));
    }
}

#[test]
fn words_have_a_plan(rt: HostRuntime) -> Result<(), Fail> {
    let plan = plan_of(
        rt.alloc(),
        "a.o --start-lib b.o --end-lib -o c.wasm --export=f -u g --threads 2",
    )?;
    assert!(rt; has_inputs(&plan, &[(0, false, false), (2, true, false)]));
    assert!(rt; has_ends(&plan, "c.wasm", "_start"));
    assert!(rt; begins_with(&plan.exports, "f"));
    assert!(rt; begins_with(&plan.wanted, "g"));
    assert!(rt; plan.gc && plan.stack_size == 65_536 && plan.threads == 2);
    assert!(rt; !plan.partial);
    Ok(())
}

#[test]
fn a_partial_link_has_a_plan(rt: HostRuntime) -> Result<(), Fail> {
    let plan = plan_of(
        rt.alloc(),
        "-r a.o b.o --validate --keep-debug --export=f -o r.o -r",
    )?;
    assert!(rt; has_inputs(&plan, &[(1, false, false), (2, false, false)]));
    assert!(rt; has_ends(&plan, "r.o", "_start"));
    assert!(rt; begins_with(&plan.exports, "f"));
    assert!(rt; plan.partial && plan.validate && plan.keep_debug);
    Ok(())
}

#[test]
fn a_case_exports_its_first_function(rt: HostRuntime) -> Result<(), Fail> {
    let plan = plan_of(rt.alloc(), "--make-case=2 --global-base=0x400 --export=g")?;
    assert!(rt; has_inputs(&plan, &[]));
    assert!(rt; begins_with(&plan.exports, "f0"));
    assert!(rt; plan.entry.is_none() && plan.make_case == Some(2));
    assert_eq!(rt; plan.global_base, Some(1024));
    Ok(())
}
