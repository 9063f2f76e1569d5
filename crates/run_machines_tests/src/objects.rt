//! Loaded objects with nothing linked: a function that writes a cell, and segments over one another.

use run_machines::{Run, SymCell, SymSegment, SymWorld, run_sym};
use run_rules::{Call, Exported, Function, Op, Session, Source, Target, Trace, Value, World};
use run_text::trace_text;
use std::alloc::Global;
use std::test::Fail;
use wasm_instr::Instr;
use wasm_types::{FuncType, ValType};
use wl_base::{Name, OutOfMemory, Seq};

fn name(alloc: Global, letter: u8) -> Result<Name, OutOfMemory> {
    Seq::from_slice(alloc, [letter].as_slice())
}

/// A function that sets cell 0 to 4.
fn function(alloc: Global) -> Result<Function, OutOfMemory> {
    let mut code = Seq::new(alloc);
    code.push(Op::Number(4))?;
    code.push(Op::WriteCell(0))?;
    code.push(Op::Own(Instr::Plain(0x0B)))?;
    Ok(Function {
        kind: FuncType {
            params: Seq::new(alloc),
            results: Seq::new(alloc),
        },
        source: Source::Code {
            locals: Seq::new(alloc),
            code,
        },
    })
}

fn exports_of(alloc: Global) -> Result<Seq<Exported>, OutOfMemory> {
    let mut exports = Seq::new(alloc);
    exports.push(Exported {
        name: name(alloc, b'f')?,
        target: Target::ToFunction(0),
    })?;
    exports.push(Exported {
        name: name(alloc, b'g')?,
        target: Target::ToCell(0),
    })?;
    exports.push(Exported {
        name: name(alloc, b'h')?,
        target: Target::ToCell(1),
    })?;
    Ok(exports)
}

fn world_of(alloc: Global) -> Result<World, OutOfMemory> {
    let mut functions = Seq::new(alloc);
    functions.push(Some(function(alloc)?))?;
    let exports = exports_of(alloc)?;
    Ok(World {
        functions,
        table: None,
        exports,
        memory: Some(1),
    })
}

fn cells_of(alloc: Global) -> Result<Seq<SymCell>, OutOfMemory> {
    let mut cells = Seq::new(alloc);
    cells.push(SymCell::Import {
        module: name(alloc, b'm')?,
        field: name(alloc, b'g')?,
        kind: ValType::I32,
    })?;
    cells.push(SymCell::Holds(Some(Value::I64(5))))?;
    Ok(cells)
}

fn segment(alloc: Global, address: u32, byte: u8) -> Result<SymSegment, OutOfMemory> {
    let bytes = Seq::from_slice(alloc, [byte, byte].as_slice())?;
    Ok(SymSegment { address, bytes })
}

/// Two bytes at 1, and two at this address.
fn objects(alloc: Global, address: u32) -> Result<SymWorld, OutOfMemory> {
    let world = world_of(alloc)?;
    let cells = cells_of(alloc)?;
    let mut segments = Seq::new(alloc);
    segments.push(segment(alloc, 1, 0xAB)?)?;
    segments.push(segment(alloc, address, 0xCD)?)?;
    Ok(SymWorld {
        world,
        cells,
        imported: true,
        pages: 0,
        segments,
    })
}

/// A call of `f`, with a memory of one page.
fn session(alloc: Global) -> Result<Session, OutOfMemory> {
    let mut calls = Seq::new(alloc);
    calls.push(Call {
        name: name(alloc, b'f')?,
        args: Seq::new(alloc),
    })?;
    Ok(Session {
        calls,
        answers: Seq::new(alloc),
        pages: Some(1),
        globals: Seq::new(alloc),
    })
}

/// What the session comes to.
fn outcome(alloc: Global, address: u32, steps: u64) -> Result<Run, OutOfMemory> {
    let objects = objects(alloc, address)?;
    let session = session(alloc)?;
    run_sym(alloc, &objects, &session, steps)
}

fn is_printed(alloc: Global, trace: &Trace, text: &[u8]) -> bool {
    match trace_text(alloc, trace) {
        Ok(printed) => printed.as_slice() == text,
        Err(_) => false,
    }
}

fn traces(alloc: Global, address: u32, steps: u64, text: &[u8]) -> bool {
    match outcome(alloc, address, steps) {
        Ok(Run::Traced(trace)) => is_printed(alloc, &trace, text),
        _ => false,
    }
}

/// Whether the second segment is outside.
fn is_outside(alloc: Global, address: u32) -> bool {
    match outcome(alloc, address, 100) {
        Ok(Run::Outside(segment)) => segment == 1,
        _ => false,
    }
}

#[test]
fn sessions_on_objects_have_their_traces(rt: HostRuntime) -> Result<(), Fail> {
    let alloc = rt.alloc();
    let over =
        b"returned\nmemory 1\n00000000 00ABCDCD000000000000000000000000\nglobal g i32:4\nglobal h i64:5\nend\n".as_slice();
    let spent =
        b"steps spent\nmemory 1\n00000000 00ABAB00000000000000000000000000\n0000FFF0 0000000000000000000000000000CDCD\nglobal g i32:0\nglobal h i64:5\nend\n".as_slice();
    assert!(rt; traces(alloc, 2, 3, over));
    assert!(rt; traces(alloc, 65_534, 1, spent));
    assert!(rt; is_outside(alloc, 65_535));
    Ok(())
}
