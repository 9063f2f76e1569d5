//! Opcodes of instructions that are quick to tell.
ghost use Rattle.std.specs.Prelude.{◌≡◌, IsTrue};
ghost use Rattle.wasm_instr.specs.declared.class.Class.TheVariants as classes;
ghost use Rattle.wasm_instr.specs.declared.instr.Instr.TheVariants as instrs;
ghost use Rattle.wasm_instr.specs.declared.outline.Outline.TheVariants as outlines;
ghost use Rattle.wasm_instr.specs.Classes.{class_of};
ghost use Rattle.wasm_instr.specs.Skimming.{outline_of};

/// Whether it is of those that compare, compute or convert numbers.
#[inline(always)]
#[tactic(auto, unfolding(wasm_instr::specs::Classes::class_of))]
pub fn is_numeric(op: u8) -> bool
    ensures class { IsTrue result → class_of op ≡ classes.Plain }
    ensures outline { IsTrue result → outline_of (instrs.Plain op) ≡ outlines.Other }
{
    matches!(op, 0x45..=0xc4)
}

/// Whether it is `unreachable`, `nop`, `return`, `drop` or `select`.
#[inline(always)]
#[tactic(auto, unfolding(wasm_instr::specs::Classes::class_of))]
pub fn is_bare(op: u8) -> bool
    ensures class { IsTrue result → class_of op ≡ classes.Plain }
    ensures outline { IsTrue result → outline_of (instrs.Plain op) ≡ outlines.Other }
{
    matches!(op, 0x00 | 0x01 | 0x0f | 0x1a | 0x1b)
}

/// Whether it is `local.get`, `local.set` or `local.tee`.
#[inline(always)]
#[tactic(auto, unfolding(wasm_instr::specs::Classes::class_of))]
pub fn is_local(op: u8) -> bool
    ensures { IsTrue result → class_of op ≡ classes.Local }
{
    matches!(op, 0x20..=0x22)
}

/// Whether it is `br` or `br_if`.
#[inline(always)]
#[tactic(auto, unfolding(wasm_instr::specs::Classes::class_of))]
pub fn is_branch(op: u8) -> bool
    ensures { IsTrue result → class_of op ≡ classes.Branch }
{
    matches!(op, 0x0c | 0x0d)
}

/// Whether it is a load or a store.
#[inline(always)]
#[tactic(auto, unfolding(wasm_instr::specs::Classes::class_of))]
pub fn is_access(op: u8) -> bool
    ensures { IsTrue result → class_of op ≡ classes.Access }
{
    matches!(op, 0x28..=0x3e)
}

/// Whether it is `i32.const`.
#[inline(always)]
#[tactic(auto, unfolding(wasm_instr::specs::Classes::class_of))]
pub fn is_constant(op: u8) -> bool
    ensures { IsTrue result → class_of op ≡ classes.I32Const }
{
    op == 0x41
}

/// Whether it is `i64.const`.
#[inline(always)]
#[tactic(auto, unfolding(wasm_instr::specs::Classes::class_of))]
pub fn is_long_constant(op: u8) -> bool
    ensures { IsTrue result → class_of op ≡ classes.I64Const }
{
    op == 0x42
}

/// Whether it is `f32.const`.
#[inline(always)]
#[tactic(auto, unfolding(wasm_instr::specs::Classes::class_of))]
pub fn is_float(op: u8) -> bool
    ensures { IsTrue result → class_of op ≡ classes.F32Const }
{
    op == 0x43
}

/// Whether it is `f64.const`.
#[inline(always)]
#[tactic(auto, unfolding(wasm_instr::specs::Classes::class_of))]
pub fn is_long_float(op: u8) -> bool
    ensures { IsTrue result → class_of op ≡ classes.F64Const }
{
    op == 0x44
}

/// Whether it is `call`.
#[inline(always)]
#[tactic(auto, unfolding(wasm_instr::specs::Classes::class_of))]
pub fn is_call(op: u8) -> bool
    ensures { IsTrue result → class_of op ≡ classes.Call }
{
    op == 0x10
}

/// Whether it is `global.get` or `global.set`.
#[inline(always)]
#[tactic(auto, unfolding(wasm_instr::specs::Classes::class_of))]
pub fn is_global(op: u8) -> bool
    ensures { IsTrue result → class_of op ≡ classes.GlobalAt }
{
    matches!(op, 0x23 | 0x24)
}

/// Whether it is `end`.
#[inline(always)]
#[tactic(auto, unfolding(wasm_instr::specs::Classes::class_of))]
pub fn is_end(op: u8) -> bool
    ensures class { IsTrue result → class_of op ≡ classes.Plain }
    ensures outline { IsTrue result → outline_of (instrs.Plain op) ≡ outlines.End }
{
    op == 0x0b
}

/// Whether it is `else`.
#[inline(always)]
#[tactic(auto, unfolding(wasm_instr::specs::Classes::class_of))]
pub fn is_else(op: u8) -> bool
    ensures class { IsTrue result → class_of op ≡ classes.Plain }
    ensures outline { IsTrue result → outline_of (instrs.Plain op) ≡ outlines.Else }
{
    op == 0x05
}

/// Whether it is `block`, `loop` or `if`.
#[inline(always)]
#[tactic(auto, unfolding(wasm_instr::specs::Classes::class_of))]
pub fn is_block(op: u8) -> bool
    ensures { IsTrue result → class_of op ≡ classes.Block }
{
    matches!(op, 0x02..=0x04)
}
