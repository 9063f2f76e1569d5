//! The code section (Core 5.5.13).
ghost use Rattle.std.specs.Prelude.{◌≡◌, ◌++◌, [], ◌∷◌, filter_map, drop, IfOk, OnOk};
ghost use Rattle.std.specs.Option.{option_to_list};
ghost use Rattle.link_program.specs.image_emit.declared.tree.Source.TheVariants.{Own};
ghost use Rattle.link_program.specs.link_rules.Program.{chunk_at};
ghost use Rattle.link_program.specs.Look.{chunk_number};
ghost use Rattle.link_program.specs.Program.{ChunksDiffer};
ghost use Rattle.link_layout.specs.Seen.{Looked};
ghost use Rattle.link_program.specs.Live.{Stage, AreLive};
ghost use Rattle.link_layout.specs.Layout.{looked, IsLayout};
ghost use Rattle.link_image.specs.Sections.{call_seen, calls_seen, file_seen, linker_bytes, apply_bytes, body_seen};

use crate::passing::Passing;
use crate::shared::apply_bytes;
use image_emit::Source;
use link_layout::{Layout, Numbering};
use link_program::{
    FunctionKey, Named, Symbol, Tables, chunk_number, function_meant, part_at, row_at, symbol_at,
};
use mark_bits::{Chunk, kinds as chunk_kinds};
use std::alloc::Global;
use wl_base::{OutOfMemory, Seq};

/// The number of the function that calls the constructors.
const CALL_CTORS: u32 = 0;

// The function that an item names.
fn call(numbering: &Numbering, symbols: &[Symbol], named: &Named) -> Option<u32>
    ensures { result ≡ call_seen numbering.now.functions symbols.now named.now }
{
    match *named {
        Named::Symbol {
            kind: _,
            place: _,
            addend: _,
            symbol,
        } => {
            let symbol = symbol_at(symbols, symbol);
            Some(numbering.function_number(function_meant(symbol)))
        }
        Named::Type {
            place: _,
            number: _,
        } => None,
    }
}

// The functions that items name.
fn calls(
    alloc: Global,
    numbering: &Numbering,
    symbols: &[Symbol],
    row: &[Named],
) -> Result<Seq<u32>, OutOfMemory>
    ensures { IfOk result (λ numbers. numbers ≡ filter_map (call_seen numbering.now.functions symbols.now) row.now) }
{
    let mut numbers = Seq::new(alloc);
    for named in row {
        if let Some(number) = call(numbering, symbols, named) {
            numbers.push(number)?;
        }
    }
    Ok(numbers)
}

// The functions that the linker's function of a number calls.
fn linker_calls(alloc: Global, layout: Layout<'_>, index: u32) -> Result<Seq<u32>, OutOfMemory>
    ensures { IfOk result (λ numbers. numbers ≡ calls_seen (looked layout.entry) (chunk_number layout.entry.program.tables.now.chunks (chunk_at 0 0 index))) }
{
    let tables = layout.program.tables;
    let chunk = Chunk {
        input: 0,
        kind: chunk_kinds::FUNCTION,
        index,
    };
    match chunk_number(&tables.chunks, chunk) {
        Some(number) => {
            let numbers = calls(
                alloc,
                layout.numbering,
                tables.symbols.as_slice(),
                row_at(tables, number),
            )?;
            Ok(numbers)
        }
        None => Ok(Seq::new(alloc)),
    }
}

// The bytes of the part of a number.
fn file(alloc: Global, tables: &Tables, number: Option<u32>) -> Source
    ensures { (k : Looked) → k.tables ≡ tables.now → result ≡ file_seen k number }
{
    match number {
        Some(number) => Source::File(part_at(tables, number).source),
        None => Source::Own(Seq::new(alloc)),
    }
}

// No locals, unreachable, end.
fn stub(alloc: Global) -> Result<Source, OutOfMemory>
    ensures { IfOk result (λ s. s ≡ Own (0 ∷ 0 ∷ 11 ∷ [])) }
{
    let bytes = Seq::from_slice(alloc, b"\x00\x00\x0B".as_slice())?;
    Ok(Source::Own(bytes))
}

// The bytes of the linker's function of a number: the one that calls the constructors, or the one that makes addresses right.
fn linker_body(
    alloc: Global,
    layout: Layout<'_>,
    live: &[u32],
    index: u32,
) -> Result<Seq<u8>, OutOfMemory>
    ghost s: { Stage }
    requires layout { IsLayout s.program s.parts s.exports layout }
    requires live { AreLive s.program live.now s.parts }
    ensures { IfOk result (λ bytes. bytes ≡ linker_bytes (apply_bytes s) (looked layout.entry) index) }
{
    if index != CALL_CTORS {
        let bytes = apply_bytes(alloc, layout, live)?;
        return Ok(bytes);
    }
    let calls = linker_calls(alloc, layout, index)?;
    let bytes = ctor_call::body(alloc, calls.as_slice())?;
    Ok(bytes)
}

// The body of a defined function. Those of objects are asked for in the order of their parts.
fn body(
    alloc: Global,
    layout: Layout<'_>,
    live: &[u32],
    passing: &mut Passing<'_>,
    key: FunctionKey,
) -> Result<Option<Source>, OutOfMemory>
    ghost s: { Stage }
    requires differ { ChunksDiffer layout.program.tables.now.chunks }
    requires layout { IsLayout s.program s.parts s.exports layout }
    requires live { AreLive s.program live.now s.parts }
    ensures { IfOk result (λ b. b ≡ body_seen (apply_bytes s) (looked layout.entry) key) }
{
    match key {
        FunctionKey::Import(_) => Ok(None),
        FunctionKey::Own { input: 0, index } => {
            let bytes = linker_body(alloc, layout, live, index)?;
            Ok(Some(Source::Own(bytes)))
        }
        FunctionKey::Own { input, index } => {
            let chunk = Chunk {
                input,
                kind: chunk_kinds::FUNCTION,
                index,
            };
            let number = passing.number(layout.program.tables, chunk);
            Ok(Some(file(alloc, layout.program.tables, number)))
        }
        FunctionKey::Stub(_) => {
            let stub = stub(alloc)?;
            Ok(Some(stub))
        }
    }
}

fn add(bodies: &mut Seq<Source>, body: Option<Source>) -> Result<(), OutOfMemory>
    ensures { OnOk result (bodies.new ≡ bodies.old ++ option_to_list body) }
{
    match body {
        Some(body) => bodies.push(body),
        None => Ok(()),
    }
}

/// The bodies of the defined functions. `live` has the numbers of the live parts.
pub(crate) fn bodies(
    alloc: Global,
    layout: Layout<'_>,
    live: &[u32],
) -> Result<Seq<Source>, OutOfMemory>
    ghost s: { Stage }
    requires differ { ChunksDiffer layout.program.tables.now.chunks }
    requires layout { IsLayout s.program s.parts s.exports layout }
    requires live { AreLive s.program live.now s.parts }
    ensures { IfOk result (λ bodies. bodies ≡ filter_map (body_seen (apply_bytes s) (looked layout.entry)) layout.entry.numbering.now.functions) }
{
    let keys = layout.numbering.functions();
    let mut bodies = Seq::with_room(alloc, keys.len())?;
    let mut passing = Passing::new(live);
    for key in keys {
        let body = body(alloc, layout, live, &mut passing, *key)?;
        add(&mut bodies, body)?;
    }
    Ok(bodies)
}
