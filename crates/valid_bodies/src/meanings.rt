//! What the indices of instructions name (Core 3.3.5 and 3.3.8).

ghost use Rattle.std.specs.Prelude.{◌≡◌, slice_get, IfOk, MatchOption, Some, None};
ghost use Rattle.valid_bodies.specs.declared.types.Meaning.TheVariants.{Nothing, OfType};
ghost use Rattle.valid_bodies.specs.Meanings.{block_type, in_table, meaning, type_at, typed_as};

use crate::types::{Context, Meaning};
use std::alloc::Global;
use wasm_instr::{BlockKind, Instr};
use wasm_types::FuncType;
use wl_base::{OutOfMemory, Seq};

/// The same type once more.
fn copied(alloc: Global, kind: &FuncType) -> Result<FuncType, OutOfMemory>
    ensures { IfOk result (λ copy. copy ≡ kind.now) }
{
    Ok(FuncType {
        params: Seq::from_slice(alloc, kind.params.as_slice())?,
        results: Seq::from_slice(alloc, kind.results.as_slice())?,
    })
}

/// The type of a block, where it is there (Core 3.2.2).
fn block_kind(
    alloc: Global,
    types: &Seq<FuncType>,
    kind: &BlockKind,
) -> Result<Option<FuncType>, OutOfMemory>
    ensures { IfOk result (λ found. found ≡ block_type types.now kind.now) }
{
    match kind {
        BlockKind::Empty => Ok(Some(FuncType {
            params: Seq::new(alloc),
            results: Seq::new(alloc),
        })),
        BlockKind::Value(of) => Ok(Some(FuncType {
            params: Seq::new(alloc),
            results: Seq::from_slice(alloc, &[*of])?,
        })),
        BlockKind::Index(index) => match types.get(*index as usize) {
            None => Ok(None),
            Some(found) => Ok(Some(copied(alloc, found)?)),
        },
    }
}

/// The type of a function, where both are there.
pub fn type_at(context: &Context, function: u32) -> Option<&FuncType>
    ensures { MatchOption result (type_at context.now function ≡ None) (λ kind. type_at context.now function ≡ Some kind.now) }
{
    match context.functions.get(function as usize) {
        None => None,
        Some(index) => context.types.get(*index as usize),
    }
}

/// The type of a function that is called through a table, where both are there, and the table of funcref.
pub fn type_through(context: &Context, kind: u32, table: u32) -> Option<&FuncType>
    ensures { MatchOption result (in_table (slice_get context.now.tables table) (typed_as (slice_get context.now.types kind)) ≡ Nothing)
        (λ found. in_table (slice_get context.now.tables table) (typed_as (slice_get context.now.types kind)) ≡ OfType found.now) }
{
    match context.tables.get(table as usize) {
        Some(true) => context.types.get(kind as usize),
        _ => None,
    }
}

/// What an instruction's index names in its context.
pub fn meaning_at(alloc: Global, context: &Context, instr: &Instr) -> Result<Meaning, OutOfMemory>
    ensures { IfOk result (λ found. found ≡ meaning context.now instr.now) }
{
    match instr {
        Instr::Block { kind, .. } => match block_kind(alloc, &context.types, kind)? {
            None => Ok(Meaning::Nothing),
            Some(kind) => Ok(Meaning::OfType(kind)),
        },
        Instr::Call(function) => match type_at(context, *function) {
            None => Ok(Meaning::Nothing),
            Some(kind) => Ok(Meaning::OfType(copied(alloc, kind)?)),
        },
        Instr::CallIndirect { kind, table } => match type_through(context, *kind, *table) {
            None => Ok(Meaning::Nothing),
            Some(kind) => Ok(Meaning::OfType(copied(alloc, kind)?)),
        },
        Instr::GlobalAt { global, .. } => match context.globals.get(*global as usize) {
            None => Ok(Meaning::Nothing),
            Some(kind) => Ok(Meaning::OfGlobal(*kind)),
        },
        _ => Ok(Meaning::Nothing),
    }
}
