//! Texts of traces.

use run_rules::{Event, NamedValue, Trace, TrapKind, Value};
use run_text::trace_text;
use std::alloc::Global;
use std::test::Fail;
use wl_base::{OutOfMemory, Seq};

/// A memory of two pages of zeros, but for a byte at 65,553.
fn two_pages(alloc: Global) -> Result<Seq<u8>, OutOfMemory> {
    let mut memory = Vec::new(alloc);
    memory.resize(131_072, 0u8)?;
    memory[65_553] = 171;
    Ok(Seq::from_vec(memory))
}

fn one(alloc: Global, value: Value) -> Result<Seq<Value>, OutOfMemory> {
    Seq::from_slice(alloc, &[value])
}

/// A call of the host, a result and a trap.
fn events(alloc: Global) -> Result<Seq<Event>, OutOfMemory> {
    let mut made = Seq::new(alloc);
    made.push(Event::Asked {
        module: Seq::from_slice(alloc, b"m".as_slice())?,
        field: Seq::new(alloc),
        args: one(alloc, Value::I64(1))?,
    })?;
    made.push(Event::Returned(one(alloc, Value::I32(7))?))?;
    made.push(Event::Trapped(TrapKind::NullEntry))?;
    Ok(made)
}

/// The global `g`, which is 5.
fn globals(alloc: Global) -> Result<Seq<NamedValue>, OutOfMemory> {
    let name = Seq::from_slice(alloc, b"g".as_slice())?;
    let mut made = Seq::new(alloc);
    made.push(NamedValue {
        name,
        value: Value::F32(5),
    })?;
    Ok(made)
}

/// Whether a trace is printed so.
fn is_printed(alloc: Global, trace: &Trace, text: &[u8]) -> bool {
    match trace_text(alloc, trace) {
        Ok(printed) => printed.as_slice() == text,
        Err(_) => false,
    }
}

/// Whether all of a trace is printed.
fn all_is_printed(alloc: Global, text: &[u8]) -> Result<bool, OutOfMemory> {
    let trace = Trace {
        events: events(alloc)?,
        memory: two_pages(alloc)?,
        globals: globals(alloc)?,
    };
    Ok(is_printed(alloc, &trace, text))
}

#[test]
fn traces_are_printed(rt: HostRuntime) -> Result<(), Fail> {
    let text =
        b"asked m \\e i64:1\nreturned i32:7\ntrapped NullEntry\nmemory 2\n00010010 00AB0000000000000000000000000000\nglobal g f32:5\nend\n";
    assert!(rt; all_is_printed(rt.alloc(), text.as_slice())?);
    Ok(())
}
