//! Reading constant expressions, globals and exports.
ghost use Rattle.std.specs.Prelude.{◌≡◌};
ghost use Rattle.wasm_instr.specs.wasm_grammar.Fault.{Reads, Gives};
ghost use Rattle.wasm_instr.specs.wasm_types.Types.{closed_at};
ghost use Rattle.wasm_module.specs.PartReading.{get_expr_at, init_at, global_at, export_kind, export_at};

use crate::parts::{Export, ModuleGlobal};
use std::alloc::Global;
use wasm_grammar::{ReadFault, Stop, byte_at, name_at, place, u32_at};
use wasm_types::{ConstExpr, const_expr_at, global_type_at};
use wl_base::Item;

/// The bytes after the byte 0B, which closes an expression.
fn closed_at(end: usize, bytes: &[u8]) -> Result<&[u8], Stop>
    ensures { Reads (λ x. x.now) result (closed_at end bytes.now) }
{
    match bytes {
        [] => Err(Stop::Broken(end)),
        [0x0b, rest @ ..] => Ok(rest),
        [byte, ..] => Err(Stop::Foreign(Item::ConstExpr(*byte))),
    }
}

/// The value of a global behind the opcode, and the bytes after it.
fn get_expr_at(end: usize, bytes: &[u8]) -> Result<(ConstExpr, &[u8]), Stop>
    ensures { Reads (λ x. (x.0, x.1.now)) result (get_expr_at end bytes.now) }
{
    let (index, rest) = u32_at(end, bytes)?;
    let rest = closed_at(end, rest)?;
    Ok((ConstExpr::Get(index), rest))
}

/// The constant expression at the front, and the bytes after it (Core 5.4.9). `get` says whether it
/// may be a global.get, as in a module, or may not, as in an object. Another opcode, in the first
/// place or before the closing 0B, is foreign.
#[tactic(auto, unfolding(crate::specs::PartReading::init_at))]
pub fn init_at(get: bool, end: usize, bytes: &[u8]) -> Result<(ConstExpr, &[u8]), Stop>
    ensures { Reads (λ x. (x.0, x.1.now)) result (init_at get end bytes.now) }
{
    match bytes {
        [0x23, rest @ ..] if get => get_expr_at(end, rest),
        _ => const_expr_at(end, bytes),
    }
}

/// The global at the front, and the bytes after it (Core 5.5.9).
#[tactic(auto, unfolding(crate::specs::PartReading::global_at))]
pub fn global_at(get: bool, end: usize, bytes: &[u8]) -> Result<(ModuleGlobal, &[u8]), Stop>
    ensures { Reads (λ x. (x.0, x.1.now)) result (global_at get end bytes.now) }
{
    let (kind, rest) = global_type_at(end, bytes)?;
    let (value, rest) = init_at(get, end, rest)?;
    Ok((ModuleGlobal { kind, value }, rest))
}

/// What is exported, by its byte at this place.
fn export_kind(place: usize, byte: u8) -> Result<u8, Stop>
    ensures { result ≡ export_kind place byte }
{
    if byte <= 3 {
        Ok(byte)
    } else {
        Err(Stop::Broken(place))
    }
}

/// The export at the front, and the bytes after it (Core 5.5.10). A kind above 3 is broken.
#[tactic(auto, unfolding(crate::specs::PartReading::export_at))]
pub fn export_at(alloc: Global, end: usize, bytes: &[u8]) -> Result<(Export, &[u8]), ReadFault>
    ensures { Gives (λ x. (x.0, x.1.now)) result (export_at end bytes.now) }
{
    let (name, after) = name_at(alloc, end, bytes)?;
    let (byte, rest) = byte_at(end, after)?;
    let kind = export_kind(place(end, after), byte)?;
    let (index, rest) = u32_at(end, rest)?;
    Ok((Export { name, kind, index }, rest))
}
