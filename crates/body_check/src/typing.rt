//! One pass over a body: each instruction is read, typed in the innermost block, and forgotten.
ghost use Rattle.std.specs.Prelude.{◌≡◌, [], ◌∷◌, false, length, Some, None, IfOk, MatchOption};
ghost use Rattle.wasm_instr.specs.Bodies.{code_at, body_at};
ghost use Rattle.wasm_instr.specs.Skimming.{outline_of};
ghost use Rattle.valid_rules.specs.Reading.{whole};
ghost use Rattle.valid_bodies.specs.Shapes.{shape};
ghost use Rattle.valid_bodies.specs.Steps.{step_on};
ghost use Rattle.valid_bodies.specs.Went.{Went};
ghost use Rattle.body_check.specs.Table.{IsTable};
ghost use Rattle.body_check.specs.Judging.{judged, verdict};

use crate::branching::types_plainly;
use crate::locals::locals_at;
use crate::skimming::{turns, unfit};
use crate::table::{Table, table_of};
use crate::verdict::Verdict;
use std::alloc::Global;
use valid_bodies::{Blocks, Context, reads_at, reads_one};
use wasm_grammar::ReadFault;
use wasm_instr::{Instr, LocalRun, Outline, instr_at};
use wasm_types::FuncType;
use wl_base::{OutOfMemory, Seq};

/// What the bytes behind the instruction that closed the last block are, where these blocks are open by the grammar.
fn closed(
    _context: &Context,
    _kind: &FuncType,
    _locals: &[LocalRun],
    opens: Seq<bool>,
    end: usize,
    bytes: &[u8],
) -> Result<Verdict, OutOfMemory>
    ensures { IfOk result (λ found. found ≡ judged _context.now _kind.now _locals.now [] (code_at (length bytes.now) end opens bytes.now)) }
{
    if opens.len() > 0 {
        return unfit(opens, end, bytes);
    }
    match bytes {
        [] => Ok(Verdict::Typed),
        _ => Ok(Verdict::Unread),
    }
}

/// Types an instruction in the innermost block: whether it has a typing. What isn't of control is typed by its effect, so
/// that what it takes and gives isn't put into lists.
fn goes_on(
    alloc: Global,
    context: &Context,
    kind: &FuncType,
    locals: &[LocalRun],
    blocks: &mut Blocks,
    instr: &Instr,
) -> Result<bool, OutOfMemory>
    ensures { IfOk result (λ went. Went (step_on blocks.old (shape context.now kind.now locals.now instr.now)) went blocks.new) }
{
    match instr {
        Instr::Plain(_)
        | Instr::Block { .. }
        | Instr::Branch { .. }
        | Instr::Call(_)
        | Instr::CallIndirect { .. } => reads_at(alloc, context, kind, locals, blocks, instr),
        _ => reads_one(alloc, context, kind, locals, blocks, instr),
    }
}

/// Types an instruction in the innermost block: its outline, where it has a typing.
fn types(
    alloc: Global,
    context: &Context,
    kind: &FuncType,
    locals: &[LocalRun],
    blocks: &mut Blocks,
    instr: Instr,
) -> Result<Option<Outline>, OutOfMemory>
    ensures { IfOk result (λ found. MatchOption found (step_on blocks.old (shape context.now kind.now locals.now instr) ≡ None)
        (λ outline. (step_on blocks.old (shape context.now kind.now locals.now instr) ≡ Some blocks.new) × (outline ≡ outline_of instr))) }
{
    let outline = instr.outline();
    if goes_on(alloc, context, kind, locals, blocks, &instr)? {
        Ok(Some(outline))
    } else {
        Ok(None)
    }
}

/// What the code is, from the first instruction of a body of this type with these locals on.
fn judge_code(
    alloc: Global,
    context: &Context,
    kind: &FuncType,
    locals: &[LocalRun],
    table: &Table,
    end: usize,
    bytes: &[u8],
) -> Result<Verdict, OutOfMemory>
    requires { IsTable kind.now.params locals.now table.now }
    ensures { IfOk result (λ found. found ≡ judged context.now kind.now locals.now (whole kind.now.results ∷ []) (code_at (length bytes.now) end (false ∷ []) bytes.now)) }
{
    let mut opens = Seq::new(alloc);
    opens.push(false)?;
    let mut blocks = Blocks::new(alloc);
    blocks.begin(kind.results.as_slice())?;
    let mut rest = bytes;
    while blocks.is_open() {
        if opens.len() == 0 {
            return unfit(opens, end, rest);
        }
        let Some(there) = types_plainly(context, kind, locals, table, &mut blocks, end, rest)?
        else {
            return unfit(opens, end, rest);
        };
        match instr_at(alloc, end, there) {
            Err(ReadFault::OutOfMemory) => return Err(OutOfMemory),
            Err(ReadFault::Stopped(_)) => return Ok(Verdict::Unread),
            Ok((instr, _, after)) => {
                let Some(outline) = types(alloc, context, kind, locals, &mut blocks, instr)? else {
                    return unfit(opens, end, there);
                };
                if !turns(&mut opens, outline)? {
                    return Ok(Verdict::Unread);
                }
                rest = after;
            }
        }
    }
    closed(context, kind, locals, opens, end, rest)
}

/// The same, with a table of the locals.
fn judge_behind(
    alloc: Global,
    context: &Context,
    kind: &FuncType,
    locals: &[LocalRun],
    end: usize,
    bytes: &[u8],
) -> Result<Verdict, OutOfMemory>
    ensures { IfOk result (λ found. found ≡ judged context.now kind.now locals.now (whole kind.now.results ∷ []) (code_at (length bytes.now) end (false ∷ []) bytes.now)) }
{
    let table = table_of(alloc, kind.params.as_slice(), locals, bytes.len())?;
    judge_code(alloc, context, kind, locals, &table, end, bytes)
}

/// What the bytes are, as the body of a function of this type in its context: read whole, and typed as it is read.
///
/// Each byte is gone over once, or twice in a `br_table` and where there is no typing; memory is taken for the locals, the
/// open blocks and their operands, and not for an instruction.
///
/// # Errors
/// Want of memory.
#[tactic(auto, unfolding(wasm_instr::specs::Bodies::body_at))]
pub fn judge(
    alloc: Global,
    context: &Context,
    kind: &FuncType,
    bytes: &[u8],
) -> Result<Verdict, OutOfMemory>
    ensures { IfOk result (λ found. found ≡ verdict context.now kind.now (body_at bytes.now)) }
{
    match locals_at(alloc, bytes.len(), bytes) {
        Err(ReadFault::OutOfMemory) => Err(OutOfMemory),
        Err(ReadFault::Stopped(_)) => Ok(Verdict::Unread),
        Ok((locals, rest)) => judge_behind(
            alloc,
            context,
            kind,
            locals.as_slice(),
            bytes.len(),
            rest,
        ),
    }
}
