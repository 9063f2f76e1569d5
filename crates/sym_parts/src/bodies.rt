//! What functions run.
ghost use Rattle.std.specs.Prelude.{◌≡◌, [], ◌∷◌, ◌++◌, Some, map, filter_map, slice_get, Ok, IfOk, OnOk};
ghost use Rattle.run_rules.specs.declared.world.Source.TheVariants.{Code};
ghost use Rattle.run_rules.specs.declared.op.Op.TheVariants.{Own};
ghost use Rattle.wasm_instr.specs.declared.instr.Instr.TheVariants.{Plain};
ghost use Rattle.link_program.specs.link_rules.Program.{chunk_at};
ghost use Rattle.link_program.specs.Look.{chunk_number};
ghost use Rattle.wasm_instr.specs.Bodies.{body_at as body_of_bytes};
ghost use Rattle.sym_parts.specs.Sought.{known};
ghost use Rattle.sym_parts.specs.Code.{body_seen, part_source, call_named, calling, calls_seen, host_seen, source_seen};

use crate::bytes::bytes_at;
use crate::ops::{call_symbol, ops_of};
use crate::rows::row_places;
use crate::sought::Sought;
use link_program::{FunctionKey, Named, Resolution, chunk_number, part_at, row_at, symbol_at};
use mark_bits::{Chunk, kinds as chunk_kinds};
use run_rules::{Op, Source};
use std::alloc::Global;
use wasm_grammar::ReadFault;
use wasm_instr::{Body, Instr, body_at};
use wl_base::{OutOfMemory, Seq};

/// `unreachable` (Core 5.4.1).
const UNREACHABLE: u8 = 0x00;

/// `end`.
const END: u8 = 0x0B;

/// A body of a part that names these.
fn body(alloc: Global, k: Sought<'_>, row: &[Named], body: Body) -> Result<Source, OutOfMemory>
    ensures { IfOk result (λ s. body_seen (known k.entry) row.now (Ok body) ≡ Some s) }
{
    let Body { locals, code } = body;
    let places = row_places(alloc, row)?;
    let ops = ops_of(alloc, k, row, &places, code)?;
    Ok(Source::Code { locals, code: ops })
}

/// What bytes run that are a part's and name these. 2^32 bytes and more are answered as want of memory.
fn source_of(
    alloc: Global,
    k: Sought<'_>,
    row: &[Named],
    bytes: &[u8],
) -> Result<Source, OutOfMemory>
    ensures { IfOk result (λ s. body_seen (known k.entry) row.now (body_of_bytes bytes.now) ≡ Some s) }
{
    if bytes.len() > u32::MAX as usize {
        return Err(OutOfMemory);
    }
    match body_at(alloc, bytes) {
        Ok(b) => body(alloc, k, row, b),
        Err(ReadFault::Stopped(_)) => Ok(Source::Nowhere),
        Err(ReadFault::OutOfMemory) => Err(OutOfMemory),
    }
}

/// What the part of a number runs.
fn part_source(
    alloc: Global,
    k: Sought<'_>,
    files: &[Seq<u8>],
    number: Option<u32>,
) -> Result<Source, OutOfMemory>
    ensures { IfOk result (λ s. part_source (known k.entry) files.now number ≡ Some s) }
{
    match number {
        Some(number) => {
            let bytes = bytes_at(files, part_at(k.tables, number).source);
            source_of(alloc, k, row_at(k.tables, number), bytes)
        }
        None => Ok(Source::Nowhere),
    }
}

/// Adds a call of what an item names.
fn add_call(ops: &mut Seq<Op>, k: Sought<'_>, named: Named) -> Result<(), OutOfMemory>
    ensures { OnOk result (ops.new ≡ ops.old ++ filter_map (call_named (known k.entry)) (named ∷ [])) }
{
    if let Named::Symbol {
        kind: _,
        place: _,
        addend: _,
        symbol,
    } = named
    {
        let symbol = symbol_at(k.tables.symbols.as_slice(), symbol);
        ops.push(call_symbol(k.functions, symbol))?;
    }
    Ok(())
}

/// Calls of what items name.
fn calls_of(alloc: Global, k: Sought<'_>, row: &[Named]) -> Result<Seq<Op>, OutOfMemory>
    ensures { IfOk result (λ ops. ops ≡ filter_map (call_named (known k.entry)) row.now) }
{
    let mut ops = Seq::new(alloc);
    for named in row {
        add_call(&mut ops, k, *named)?;
    }
    Ok(ops)
}

/// What the linker's function runs that names these: the calls, and the end.
fn calling(alloc: Global, k: Sought<'_>, row: &[Named]) -> Result<Source, OutOfMemory>
    ensures { IfOk result (λ s. s ≡ calling (known k.entry) row.now) }
{
    let mut code = calls_of(alloc, k, row)?;
    code.push(Op::Own(Instr::Plain(END)))?;
    Ok(Source::Code {
        locals: Seq::new(alloc),
        code,
    })
}

/// What the linker's function of a part's number runs.
fn linker_source(alloc: Global, k: Sought<'_>, number: Option<u32>) -> Result<Source, OutOfMemory>
    ensures { IfOk result (λ s. s ≡ calls_seen (known k.entry) number) }
{
    match number {
        Some(number) => calling(alloc, k, row_at(k.tables, number)),
        None => Ok(Source::Nowhere),
    }
}

/// An imported function.
fn host(alloc: Global, resolution: &Resolution, number: u32) -> Result<Source, OutOfMemory>
    ensures { IfOk result (λ s. host_seen (slice_get resolution.now.imports number) ≡ Some s) }
{
    if number >= resolution.imports() {
        return Err(OutOfMemory);
    }
    let (module, field) = resolution.import(number);
    let module = Seq::from_slice(alloc, module)?;
    let field = Seq::from_slice(alloc, field)?;
    Ok(Source::Host { module, field })
}

/// A stub: `unreachable`.
fn stub(alloc: Global) -> Result<Source, OutOfMemory>
    ensures { IfOk result (λ s. s ≡ Code [] (Own (Plain 0) ∷ Own (Plain 11) ∷ [])) }
{
    let mut code = Seq::new(alloc);
    code.push(Op::Own(Instr::Plain(UNREACHABLE)))?;
    code.push(Op::Own(Instr::Plain(END)))?;
    Ok(Source::Code {
        locals: Seq::new(alloc),
        code,
    })
}

/// What a function runs.
pub(crate) fn source_by(
    alloc: Global,
    k: Sought<'_>,
    files: &[Seq<u8>],
    resolution: &Resolution,
    key: FunctionKey,
) -> Result<Source, OutOfMemory>
    ensures { IfOk result (λ s. source_seen (known k.entry) files.now resolution.now.imports key ≡ Some s) }
{
    match key {
        FunctionKey::Import(number) => host(alloc, resolution, number),
        FunctionKey::Own { input: 0, index } => {
            let chunk = Chunk {
                input: 0,
                kind: chunk_kinds::FUNCTION,
                index,
            };
            let source = linker_source(alloc, k, chunk_number(&k.tables.chunks, chunk))?;
            Ok(source)
        }
        FunctionKey::Own { input, index } => {
            let chunk = Chunk {
                input,
                kind: chunk_kinds::FUNCTION,
                index,
            };
            part_source(alloc, k, files, chunk_number(&k.tables.chunks, chunk))
        }
        FunctionKey::Stub(_) => {
            let source = stub(alloc)?;
            Ok(source)
        }
    }
}
