//! What the references of an object's instructions mean.
ghost use Rattle.std.specs.Prelude.{◌≡◌, [], slice_get, IfOk};
ghost use Rattle.valid_bodies.specs.Meanings.{typed_as, block_type};
ghost use Rattle.valid_objects.specs.Objects.{type_named, function_by, cell_by, function_named, cell_named};
ghost use Rattle.valid_objects.specs.Merging.{AreNames, cell_of, meaning_by};

use crate::names::{Names, copied, written_type};
use object_file::{Object, Operand, SymbolKind};
use std::alloc::Global;
use valid_bodies::Meaning;
use wasm_instr::{BlockKind, Instr};
use wasm_types::{FuncType, GlobalType, ValType};
use wl_base::{OutOfMemory, Seq};

/// A type by its index.
fn type_named(alloc: Global, o: &Object, operand: Option<Operand>) -> Result<Meaning, OutOfMemory>
    ensures { IfOk result (λ found. found ≡ type_named o.now operand) }
{
    let Some(Operand::TypeRef { index, .. }) = operand else {
        return Ok(Meaning::Nothing);
    };
    match o.types.get(index as usize) {
        None => Ok(Meaning::Nothing),
        Some(kind) => Ok(Meaning::OfType(copied(alloc, kind)?)),
    }
}

/// A function by its symbol.
fn function_by(
    alloc: Global,
    o: &Object,
    names: &Names,
    symbol: u32,
) -> Result<Meaning, OutOfMemory>
    requires { AreNames names.now o.now }
    ensures { IfOk result (λ found. found ≡ function_by o.now (slice_get o.now.symbols symbol)) }
{
    let Some(symbol) = o.symbols.get(symbol as usize) else {
        return Ok(Meaning::Nothing);
    };
    match names.functions.get(symbol.index as usize) {
        None => Ok(Meaning::Nothing),
        Some(index) => Ok(Meaning::OfType(written_type(alloc, o, *index)?)),
    }
}

/// What a symbol of this kind and index is under an instruction for a global.
fn cell_of_kind(names: &Names, kind: SymbolKind, index: u32) -> Meaning
    ensures { result ≡ cell_of names.now.globals kind index }
{
    match kind {
        SymbolKind::GlobalVar => match names.globals.get(index as usize) {
            None => Meaning::Nothing,
            Some(global) => Meaning::OfGlobal(*global),
        },
        SymbolKind::Function | SymbolKind::Datum => Meaning::OfGlobal(GlobalType {
            kind: ValType::I32,
            var: false,
        }),
        SymbolKind::Section | SymbolKind::Table => Meaning::Nothing,
    }
}

/// A global, or the address of a function or datum, by its symbol.
fn cell_by(o: &Object, names: &Names, symbol: u32) -> Meaning
    requires { AreNames names.now o.now }
    ensures { result ≡ cell_by o.now (slice_get o.now.symbols symbol) }
{
    match o.symbols.get(symbol as usize) {
        None => Meaning::Nothing,
        Some(symbol) => cell_of_kind(names, symbol.kind, symbol.index),
    }
}

/// A function by the operand of a call.
fn function_named(
    alloc: Global,
    o: &Object,
    names: &Names,
    operand: Option<Operand>,
) -> Result<Meaning, OutOfMemory>
    requires { AreNames names.now o.now }
    ensures { IfOk result (λ found. found ≡ function_named o.now operand) }
{
    match operand {
        Some(Operand::Symbol { symbol, .. }) => function_by(alloc, o, names, symbol),
        _ => Ok(Meaning::Nothing),
    }
}

/// A global by the operand of an instruction for one.
fn cell_named(o: &Object, names: &Names, operand: Option<Operand>) -> Meaning
    requires { AreNames names.now o.now }
    ensures { result ≡ cell_named o.now operand }
{
    match operand {
        Some(Operand::Symbol { symbol, .. }) => cell_by(o, names, symbol),
        _ => Meaning::Nothing,
    }
}

/// The type of a block that isn't an index.
fn block_named(alloc: Global, kind: &BlockKind) -> Result<Meaning, OutOfMemory>
    ensures { IfOk result (λ found. found ≡ typed_as (block_type [] kind.now)) }
{
    match kind {
        BlockKind::Empty => Ok(Meaning::OfType(FuncType {
            params: Seq::new(alloc),
            results: Seq::new(alloc),
        })),
        BlockKind::Value(of) => Ok(Meaning::OfType(FuncType {
            params: Seq::new(alloc),
            results: Seq::from_slice(alloc, &[*of])?,
        })),
        BlockKind::Index(_) => Ok(Meaning::Nothing),
    }
}

/// What an instruction names, by what stands at its immediate.
pub fn meaning_by(
    alloc: Global,
    o: &Object,
    names: &Names,
    operand: Option<Operand>,
    instr: &Instr,
) -> Result<Meaning, OutOfMemory>
    requires { AreNames names.now o.now }
    ensures { IfOk result (λ found. found ≡ meaning_by o.now operand instr.now) }
{
    match instr {
        Instr::Block {
            kind: BlockKind::Index(_),
            ..
        } => type_named(alloc, o, operand),
        Instr::Block { kind, .. } => block_named(alloc, kind),
        Instr::Call(_) => function_named(alloc, o, names, operand),
        Instr::CallIndirect { .. } => type_named(alloc, o, operand),
        Instr::GlobalAt { .. } => Ok(cell_named(o, names, operand)),
        _ => Ok(Meaning::Nothing),
    }
}
