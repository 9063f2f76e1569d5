//! The types of loads and stores (Core 3.3.7).

ghost use Rattle.std.specs.Prelude.{◌≡◌, [], ◌∷◌, Some};
ghost use Rattle.wasm_types.specs.declared.value.ValType.TheVariants.{I32 as AnI32};
ghost use Rattle.valid_bodies.specs.Effects.{shape_of};
ghost use Rattle.valid_bodies.specs.Numeric.{to, one};
ghost use Rattle.valid_bodies.specs.Accesses.{access, aligned, wide};

use crate::effects::Effect;
use wasm_types::ValType;

/// A load of this type, whose alignment is 2^align and may be 2^most.
fn load(kind: ValType, most: u32, align: u32) -> Effect
    ensures { shape_of result ≡ aligned align (λ t. one AnI32 t) (Some (wide kind most)) }
{
    if align <= most {
        Effect::Turns(ValType::I32, kind)
    } else {
        Effect::Untyped
    }
}

/// A store of this type, whose alignment is 2^align and may be 2^most.
fn store(kind: ValType, most: u32, align: u32) -> Effect
    ensures { shape_of result ≡ aligned align (λ t. to (AnI32 ∷ t ∷ []) []) (Some (wide kind most)) }
{
    if align <= most {
        Effect::Stores(kind)
    } else {
        Effect::Untyped
    }
}

/// The effect of a load or a store, by its opcode (Core 5.4.6). The rows are the definition's.
#[tactic(auto, unfolding(crate::specs::Accesses::access))]
pub fn access_effect(memory: bool, op: u8, align: u32) -> Effect
    ensures { shape_of result ≡ access memory op align }
{
    if !memory {
        return Effect::Untyped;
    }
    match op {
        0x28 => load(ValType::I32, 2, align),
        0x29 => load(ValType::I64, 3, align),
        0x2a => load(ValType::F32, 2, align),
        0x2b => load(ValType::F64, 3, align),
        // load8_s, load8_u, load16_s, load16_u, load32_s, load32_u
        0x2c..=0x2d => load(ValType::I32, 0, align),
        0x2e..=0x2f => load(ValType::I32, 1, align),
        0x30..=0x31 => load(ValType::I64, 0, align),
        0x32..=0x33 => load(ValType::I64, 1, align),
        0x34..=0x35 => load(ValType::I64, 2, align),
        0x36 => store(ValType::I32, 2, align),
        0x37 => store(ValType::I64, 3, align),
        0x38 => store(ValType::F32, 2, align),
        0x39 => store(ValType::F64, 3, align),
        // store8, store16, store32
        0x3a => store(ValType::I32, 0, align),
        0x3b => store(ValType::I32, 1, align),
        0x3c => store(ValType::I64, 0, align),
        0x3d => store(ValType::I64, 1, align),
        0x3e => store(ValType::I64, 2, align),
        _ => Effect::Untyped,
    }
}
