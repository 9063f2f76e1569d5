//! Whether bytes are a body, whatever its typing: they are skimmed, and nothing is kept but the open blocks.
ghost use Rattle.std.specs.Prelude.{◌≡◌, [], ◌∷◌, false, length, IfOk};
ghost use Rattle.wasm_instr.specs.Bodies.{code_at, body_at};
ghost use Rattle.wasm_instr.specs.Skimming.{outline_step};
ghost use Rattle.valid_bodies.specs.Went.{Went};
ghost use Rattle.body_check.specs.Judging.{is_read, unfit};

use crate::verdict::Verdict;
use std::alloc::Global;
use wasm_grammar::ReadFault;
use wasm_instr::{Outline, outline_step, skim_at, skip_locals_at};
use wl_base::{OutOfMemory, Seq};

/// Opens and closes the blocks of an instruction of this outline: whether it may stand there.
pub fn turns(opens: &mut Seq<bool>, outline: Outline) -> Result<bool, OutOfMemory>
    ensures { IfOk result (λ went. Went (outline_step opens.old outline) went opens.new) }
{
    match outline_step(opens, 0, outline) {
        Ok(()) => Ok(true),
        Err(ReadFault::Stopped(_)) => Ok(false),
        Err(ReadFault::OutOfMemory) => Err(OutOfMemory),
    }
}

/// Whether the bytes are the code from some instruction of a body on, where these blocks are open.
fn is_code(opens: Seq<bool>, end: usize, bytes: &[u8]) -> Result<bool, OutOfMemory>
    ensures { IfOk result (λ so. so ≡ is_read (code_at (length bytes.now) end opens bytes.now)) }
{
    let mut opens = opens;
    let mut rest = bytes;
    while opens.len() > 0 {
        let Ok((outline, _, after)) = skim_at(end, rest) else {
            return Ok(false)
        };
        if !turns(&mut opens, outline)? {
            return Ok(false);
        }
        rest = after;
    }
    match rest {
        [] => Ok(true),
        _ => Ok(false),
    }
}

/// What the bytes are, where the code before them has a typing that doesn't go on.
pub fn unfit(opens: Seq<bool>, end: usize, bytes: &[u8]) -> Result<Verdict, OutOfMemory>
    ensures { IfOk result (λ found. found ≡ unfit (is_read (code_at (length bytes.now) end opens bytes.now))) }
{
    if is_code(opens, end, bytes)? {
        Ok(Verdict::Untyped)
    } else {
        Ok(Verdict::Unread)
    }
}

/// Whether the bytes are a body (Core 5.5.13). Memory is taken for its open blocks.
///
/// # Errors
/// Want of memory.
#[tactic(auto, unfolding(wasm_instr::specs::Bodies::body_at, wasm_instr::specs::Skimming::skip_locals_at))]
pub fn is_body(alloc: Global, bytes: &[u8]) -> Result<bool, OutOfMemory>
    ensures { IfOk result (λ so. so ≡ is_read (body_at bytes.now)) }
{
    let Ok(rest) = skip_locals_at(bytes.len(), bytes) else {
        return Ok(false)
    };
    let mut opens = Seq::new(alloc);
    opens.push(false)?;
    is_code(opens, bytes.len(), rest)
}
