//! Globals.
ghost use Rattle.std.specs.Prelude.{◌≡◌};
ghost use Rattle.wasm_instr.specs.wasm_grammar.Fault.{Reads, Gives};
ghost use Rattle.object_parts.specs.Turns.{turns_at, entries_at};
ghost use Rattle.object_parts.specs.Placed.{stays, global_def_at};

use crate::parts::GlobalDef;
use crate::placed::span_between;
use std::alloc::Global;
use wasm_grammar::{ReadFault, Stop, none_at, u32_at};
use wasm_module::{const_expr_at, global_type_at};
use wl_base::Seq;

/// The global at the front, and the bytes after it (Core 5.5.9).
#[tactic(auto, unfolding(crate::specs::Placed::global_def_at))]
fn global_def_at(end: usize, bytes: &[u8]) -> Result<(GlobalDef, &[u8]), Stop>
    ensures { Reads (λ x. (x.0, x.1.now)) result (global_def_at tt end bytes.now) }
{
    let (kind, from) = global_type_at(end, bytes)?;
    let (value, rest) = const_expr_at(end, from)?;
    let span = span_between(end, from, rest);
    Ok((GlobalDef { kind, value, span }, rest))
}

/// So many globals, and the bytes after them.
fn many_globals(
    alloc: Global,
    count: u32,
    end: usize,
    bytes: &[u8],
) -> Result<(Seq<GlobalDef>, &[u8]), ReadFault>
    ensures { Gives (λ x. (x.0, x.1.now)) result (turns_at global_def_at stays count tt end bytes.now) }
{
    let mut globals = Seq::new(alloc);
    let mut rest = bytes;
    for _ in 0..count {
        let (global, after) = global_def_at(end, rest)?;
        globals.push(global)?;
        rest = after;
    }
    Ok((globals, rest))
}

/// The globals that are all the bytes (Core 5.5.9).
#[tactic(auto, unfolding(crate::specs::Turns::entries_at))]
pub fn globals_at(alloc: Global, end: usize, payload: &[u8]) -> Result<Seq<GlobalDef>, ReadFault>
    ensures { Gives (λ x. x) result (entries_at global_def_at stays tt end payload.now) }
{
    let (count, rest) = u32_at(end, payload)?;
    let (globals, rest) = many_globals(alloc, count, end, rest)?;
    none_at(end, rest)?;
    Ok(globals)
}
