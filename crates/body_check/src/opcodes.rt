//! Opcodes of instructions that are quick to type.
ghost use Rattle.std.specs.Prelude.{◌≡◌, List, IsTrue};
ghost use Rattle.wasm_types.specs.declared.value.ValType.{ValType};
ghost use Rattle.wasm_instr.specs.declared.class.Class.TheVariants as classes;
ghost use Rattle.wasm_instr.specs.declared.instr.Instr.TheVariants as instrs;
ghost use Rattle.wasm_instr.specs.declared.outline.Outline.TheVariants as outlines;
ghost use Rattle.wasm_instr.specs.Classes.{class_of};
ghost use Rattle.wasm_instr.specs.Skimming.{outline_of};
ghost use Rattle.valid_bodies.specs.Numeric.{numeric};
ghost use Rattle.valid_bodies.specs.Shapes.{plain};

/// Whether it is of those that compare, compute or convert numbers.
#[inline(always)]
#[tactic(auto, unfolding(wasm_instr::specs::Classes::class_of, valid_bodies::specs::Shapes::plain))]
pub fn is_numeric(op: u8) -> bool
    ensures class { IsTrue result → class_of op ≡ classes.Plain }
    ensures outline { IsTrue result → outline_of (instrs.Plain op) ≡ outlines.Other }
    ensures shape { IsTrue result → (results : List ValType) → plain results op ≡ numeric op }
{
    matches!(op, 0x45..=0xc4)
}

/// Whether it is `local.get`, `local.set` or `local.tee`.
#[inline(always)]
#[tactic(auto, unfolding(wasm_instr::specs::Classes::class_of))]
pub fn is_local(op: u8) -> bool
    ensures { IsTrue result → class_of op ≡ classes.Local }
{
    matches!(op, 0x20..=0x22)
}

/// Whether it is `global.get` or `global.set`.
#[inline(always)]
#[tactic(auto, unfolding(wasm_instr::specs::Classes::class_of))]
pub fn is_global(op: u8) -> bool
    ensures { IsTrue result → class_of op ≡ classes.GlobalAt }
{
    matches!(op, 0x23 | 0x24)
}

/// Whether it is a load or a store.
#[inline(always)]
#[tactic(auto, unfolding(wasm_instr::specs::Classes::class_of))]
pub fn is_access(op: u8) -> bool
    ensures { IsTrue result → class_of op ≡ classes.Access }
{
    matches!(op, 0x28..=0x3e)
}

/// Whether it is `i32.const`.
#[inline(always)]
#[tactic(auto, unfolding(wasm_instr::specs::Classes::class_of))]
pub fn is_constant(op: u8) -> bool
    ensures { IsTrue result → class_of op ≡ classes.I32Const }
{
    op == 0x41
}

/// Whether it is `i64.const`.
#[inline(always)]
#[tactic(auto, unfolding(wasm_instr::specs::Classes::class_of))]
pub fn is_long_constant(op: u8) -> bool
    ensures { IsTrue result → class_of op ≡ classes.I64Const }
{
    op == 0x42
}
