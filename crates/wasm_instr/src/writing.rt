//! Writing instructions and bodies.
//!
//! Each call appends the shortest spelling. Where memory is refused, a part of it may stand behind
//! the bytes that were there, unless the call says otherwise.
ghost use Rattle.std.specs.Prelude.{◌≡◌, ℕ, List, OnOk, OnErr, pos};
ghost use Rattle.wasm_grammar.specs.Writers.{Appends, Writes, Keeps};
ghost use Rattle.wasm_grammar.specs.Grammar.{SpellsS33, SpellsMany, SpellsVector};
ghost use Rattle.wasm_instr.specs.Instrs.{SpellsBlockKind, SpellsF32, SpellsF64, SpellsHead, SpellsLast, SpellsInstr};
ghost use Rattle.wasm_instr.specs.Bodies.{SpellsRun};
ghost use Rattle.wasm_instr.specs.Placeless.{instrs_of, SpellsPlaceless};

use crate::body::{Body, LocalRun, Placed};
use crate::instr::{BlockKind, Instr};
use wasm_grammar::{Spell, cut_back, put_byte, put_count, put_s32, put_s64, put_u32, put_vector};
use wl_base::{OutOfMemory, Seq};

/// Appends an index as an s33 (Core 5.4.1).
fn put_index(to: &mut Seq<u8>, n: u32) -> Result<(), OutOfMemory>
    ensures ok { OnOk result (Writes (SpellsS33 (pos n)) to.old to.new) }
    ensures keeps { Keeps to.old to.new }
{
    put_s64(to, &i64::from(n))
}

/// Appends the type of a block (Core 5.4.1).
fn put_block_kind(to: &mut Seq<u8>, kind: &BlockKind) -> Result<(), OutOfMemory>
    ensures ok { OnOk result (Writes (SpellsBlockKind kind.now) to.old to.new) }
    ensures keeps { Keeps to.old to.new }
{
    match kind {
        BlockKind::Empty => put_byte(to, 0x40),
        BlockKind::Value(t) => put_byte(to, t.byte()),
        BlockKind::Index(n) => put_index(to, *n),
    }
}

/// Appends the bits of an f32 (Core 5.2.3).
fn put_f32(to: &mut Seq<u8>, n: u32) -> Result<(), OutOfMemory>
    ensures ok { OnOk result (Appends (SpellsF32 n) to.old to.new) }
    ensures keeps { Keeps to.old to.new }
{
    to.extend_from_slice(&n.to_le_bytes())
}

/// Appends the bits of an f64 (Core 5.2.3).
fn put_f64(to: &mut Seq<u8>, n: u64) -> Result<(), OutOfMemory>
    ensures ok { OnOk result (Appends (SpellsF64 n) to.old to.new) }
    ensures keeps { Keeps to.old to.new }
{
    to.extend_from_slice(&n.to_le_bytes())
}

/// Appends the opcode, and the immediates but the last.
#[tactic(auto, using(wasm_grammar::specs::WriterLaws::keeps_then))]
fn put_head(to: &mut Seq<u8>, instr: &Instr) -> Result<(), OutOfMemory>
    ensures ok { OnOk result (Writes (SpellsHead instr.now) to.old to.new) }
    ensures keeps { Keeps to.old to.new }
{
    match instr {
        Instr::Plain(opcode)
        | Instr::Block { opcode, .. }
        | Instr::Branch { opcode, .. }
        | Instr::Local { opcode, .. }
        | Instr::GlobalAt { opcode, .. } => put_byte(to, *opcode),
        Instr::BranchTable { labels, .. } => {
            put_byte(to, 0x0e)?;
            put_vector(to, labels.as_slice())
        }
        Instr::Call(_) => put_byte(to, 0x10),
        Instr::CallIndirect { kind, .. } => {
            put_byte(to, 0x11)?;
            put_u32(to, *kind)
        }
        Instr::SelectTyped(_) => put_byte(to, 0x1c),
        Instr::Access { opcode, align, .. } => {
            put_byte(to, *opcode)?;
            put_u32(to, *align)
        }
        Instr::MemorySize => put_byte(to, 0x3f),
        Instr::MemoryGrow => put_byte(to, 0x40),
        Instr::I32Const(_) => put_byte(to, 0x41),
        Instr::I64Const(_) => put_byte(to, 0x42),
        Instr::F32Const(_) => put_byte(to, 0x43),
        Instr::F64Const(_) => put_byte(to, 0x44),
        Instr::Truncate(n) => {
            put_byte(to, 0xfc)?;
            put_u32(to, *n)
        }
        Instr::MemoryCopy => {
            put_byte(to, 0xfc)?;
            put_u32(to, 10)?;
            put_byte(to, 0)
        }
        Instr::MemoryFill => {
            put_byte(to, 0xfc)?;
            put_u32(to, 11)
        }
    }
}

/// Appends the last immediate, where there is one.
#[tactic(auto, using(wasm_grammar::specs::WriterLaws::keeps_then))]
fn put_last(to: &mut Seq<u8>, instr: &Instr) -> Result<(), OutOfMemory>
    ensures ok { OnOk result (Writes (SpellsLast instr.now) to.old to.new) }
    ensures keeps { Keeps to.old to.new }
{
    match instr {
        Instr::Plain(_) | Instr::Truncate(_) => Ok(()),
        Instr::Block { kind, .. } => put_block_kind(to, kind),
        Instr::Branch { label, .. } => put_u32(to, *label),
        Instr::BranchTable { last, .. } => put_u32(to, *last),
        Instr::Call(function) => put_u32(to, *function),
        Instr::CallIndirect { table, .. } => put_u32(to, *table),
        Instr::SelectTyped(kinds) => put_vector(to, kinds.as_slice()),
        Instr::Local { local, .. } => put_u32(to, *local),
        Instr::GlobalAt { global, .. } => put_u32(to, *global),
        Instr::Access { offset, .. } => put_u32(to, *offset),
        Instr::MemorySize | Instr::MemoryGrow | Instr::MemoryCopy | Instr::MemoryFill => {
            put_byte(to, 0)
        }
        Instr::I32Const(n) => put_s32(to, n),
        Instr::I64Const(n) => put_s64(to, n),
        Instr::F32Const(n) => put_f32(to, *n),
        Instr::F64Const(n) => put_f64(to, *n),
    }
}

/// Appends the shortest spelling, where the instruction has one (Core 5.4). Another one is written
/// in the same form, which is no spelling.
#[tactic(auto, using(wasm_grammar::specs::WriterLaws::keeps_then))]
pub fn put_instr(to: &mut Seq<u8>, instr: &Instr) -> Result<(), OutOfMemory>
    ensures ok { OnOk result (Writes (SpellsInstr instr.now) to.old to.new) }
    ensures keeps { Keeps to.old to.new }
{
    put_head(to, instr)?;
    put_last(to, instr)
}

/// Appends the shortest spelling, where the instruction has one (Core 5.4). Where memory is refused
/// the bytes are as before.
pub fn write_instr(to: &mut Seq<u8>, instr: &Instr) -> Result<(), OutOfMemory>
    ensures ok { OnOk result (Writes (SpellsInstr instr.now) to.old to.new) }
    ensures err { OnErr result (to.new ≡ to.old) }
{
    let len = to.len();
    let written = put_instr(to, instr);
    cut_back(to, len, written)
}

/// Appends a run of locals (Core 5.5.13).
#[tactic(auto, using(wasm_grammar::specs::WriterLaws::keeps_then))]
fn put_run(to: &mut Seq<u8>, run: &LocalRun) -> Result<(), OutOfMemory>
    ensures ok { OnOk result (Appends (SpellsRun run.now) to.old to.new) }
    ensures keeps { Keeps to.old to.new }
{
    put_u32(to, run.count)?;
    put_byte(to, run.kind.byte())
}

/// Appends the vector of the runs of locals (Core 5.5.13).
#[tactic(auto, using(wasm_grammar::specs::WriterLaws::keeps_then))]
fn put_runs(to: &mut Seq<u8>, runs: &[LocalRun]) -> Result<(), OutOfMemory>
    ensures ok { OnOk result (Writes (SpellsVector SpellsRun runs.now) to.old to.new) }
    ensures keeps { Keeps to.old to.new }
{
    put_count(to, runs.len())?;
    for run in runs {
        put_run(to, run)?;
    }
    Ok(())
}

/// Appends instructions, one after the other.
#[tactic(auto, using(wasm_grammar::specs::WriterLaws::keeps_then))]
fn put_code(to: &mut Seq<u8>, code: &[Placed]) -> Result<(), OutOfMemory>
    ensures ok { OnOk result (Writes (SpellsMany SpellsInstr (instrs_of code.now)) to.old to.new) }
    ensures keeps { Keeps to.old to.new }
{
    for placed in code {
        put_instr(to, &placed.instr)?;
    }
    Ok(())
}

/// Appends the shortest spelling of a body's locals and instructions, where they have one (Core
/// 5.5.13, without the size). The places in it are not looked at.
#[tactic(auto, using(wasm_grammar::specs::WriterLaws::keeps_then))]
pub fn put_body(to: &mut Seq<u8>, body: &Body) -> Result<(), OutOfMemory>
    ensures ok { OnOk result (Writes (SpellsPlaceless body.now) to.old to.new) }
    ensures keeps { Keeps to.old to.new }
{
    put_runs(to, body.locals.as_slice())?;
    put_code(to, body.code.as_slice())
}
