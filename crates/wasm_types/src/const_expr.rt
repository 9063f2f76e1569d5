//! Constant expressions.
ghost use Rattle.std.specs.Prelude.{OnOk};
ghost use Rattle.wasm_grammar.specs.Fault.{Reads};
ghost use Rattle.wasm_grammar.specs.Writers.{Appends, Keeps};
ghost use Rattle.wasm_types.specs.Types.{SpellsExpr, closed_at, opened_expr, const_expr_at};

use wasm_grammar::{Stop, byte_at, put_byte, put_s32, put_s64, put_u32, s32_at, s64_at};
use wl_base::{Item, OutOfMemory, Seq};

/// A constant expression of one instruction (Core 5.4.9).
#[derive(Clone, Copy, Debug, PartialEq, Eq)]
pub enum ConstExpr {
    /// The i32 of an `i32.const`.
    I32(i32),
    /// The i64 of an `i64.const`.
    I64(i64),
    /// The value of the global of this index. It is written, and never read: there it is foreign.
    Get(u32),
}

/// The bytes after the byte 0B, which closes an expression.
fn closed_at(end: usize, bytes: &[u8]) -> Result<&[u8], Stop>
    ensures { Reads (λ x. x.now) result (closed_at end bytes.now) }
{
    match bytes {
        [] => Err(Stop::Broken(end)),
        [0x0b, rest @ ..] => Ok(rest),
        [byte, ..] => Err(Stop::Foreign(Item::ConstExpr(*byte))),
    }
}

/// The expression behind its opcode, and the bytes after it.
fn opened_expr(opcode: u8, end: usize, rest: &[u8]) -> Result<(ConstExpr, &[u8]), Stop>
    ensures { Reads (λ x. (x.0, x.1.now)) result (opened_expr opcode end rest.now) }
{
    match opcode {
        0x41 => {
            let (n, rest) = s32_at(end, rest)?;
            let rest = closed_at(end, rest)?;
            Ok((ConstExpr::I32(n), rest))
        }
        0x42 => {
            let (n, rest) = s64_at(end, rest)?;
            let rest = closed_at(end, rest)?;
            Ok((ConstExpr::I64(n), rest))
        }
        _ => Err(Stop::Foreign(Item::ConstExpr(opcode))),
    }
}

/// The constant expression at the front, and the bytes after it (Core 5.4.9). Another opcode, in
/// the first place or before the closing 0B, is foreign.
#[tactic(auto, unfolding(crate::specs::Types::const_expr_at))]
pub fn const_expr_at(end: usize, bytes: &[u8]) -> Result<(ConstExpr, &[u8]), Stop>
    ensures { Reads (λ x. (x.0, x.1.now)) result (const_expr_at end bytes.now) }
{
    let (opcode, rest) = byte_at(end, bytes)?;
    opened_expr(opcode, end, rest)
}

/// Appends the shortest spelling of the expression (Core 5.4.9).
#[tactic(auto, using(wasm_grammar::specs::WriterLaws::keeps_then))]
pub fn put_const_expr(to: &mut Seq<u8>, expr: &ConstExpr) -> Result<(), OutOfMemory>
    ensures ok { OnOk result (Appends (SpellsExpr expr.now) to.old to.new) }
    ensures keeps { Keeps to.old to.new }
{
    match expr {
        ConstExpr::I32(n) => {
            put_byte(to, 0x41)?;
            put_s32(to, n)?;
            put_byte(to, 0x0b)
        }
        ConstExpr::I64(n) => {
            put_byte(to, 0x42)?;
            put_s64(to, n)?;
            put_byte(to, 0x0b)
        }
        ConstExpr::Get(index) => {
            put_byte(to, 0x23)?;
            put_u32(to, *index)?;
            put_byte(to, 0x0b)
        }
    }
}
