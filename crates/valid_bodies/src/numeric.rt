//! The types of numeric instructions (Core 3.3.1).

ghost use Rattle.std.specs.Prelude.{◌≡◌};
ghost use Rattle.valid_bodies.specs.Effects.{shape_of};
ghost use Rattle.valid_bodies.specs.Numeric.{numeric, truncation};

use crate::effects::Effect;
use wasm_types::ValType;

/// The effect of a numeric instruction, by its opcode (Core 5.4.7). The rows are the definition's.
#[tactic(auto, unfolding(crate::specs::Numeric::numeric))]
pub fn numeric_effect(op: u8) -> Effect
    ensures { shape_of result ≡ numeric op }
{
    match op {
        // eqz; clz, ctz, popcnt; extend8_s, extend16_s
        0x45 | 0x67..=0x69 | 0xc0..=0xc1 => Effect::Turns(ValType::I32, ValType::I32),
        // eq to ge_u; add to rotr
        0x46..=0x4f | 0x6a..=0x78 => Effect::Joins(ValType::I32, ValType::I32),
        // i64.eqz; i32.wrap_i64
        0x50 | 0xa7 => Effect::Turns(ValType::I64, ValType::I32),
        // comparisons
        0x51..=0x5a => Effect::Joins(ValType::I64, ValType::I32),
        0x5b..=0x60 => Effect::Joins(ValType::F32, ValType::I32),
        0x61..=0x66 => Effect::Joins(ValType::F64, ValType::I32),
        // clz, ctz, popcnt; extend8_s to extend32_s
        0x79..=0x7b | 0xc2..=0xc4 => Effect::Turns(ValType::I64, ValType::I64),
        // add to rotr
        0x7c..=0x8a => Effect::Joins(ValType::I64, ValType::I64),
        // abs to sqrt; add to copysign
        0x8b..=0x91 => Effect::Turns(ValType::F32, ValType::F32),
        0x92..=0x98 => Effect::Joins(ValType::F32, ValType::F32),
        0x99..=0x9f => Effect::Turns(ValType::F64, ValType::F64),
        0xa0..=0xa6 => Effect::Joins(ValType::F64, ValType::F64),
        // conversions; those of one number each are reinterpretations
        0xa8..=0xa9 | 0xbc => Effect::Turns(ValType::F32, ValType::I32),
        0xaa..=0xab => Effect::Turns(ValType::F64, ValType::I32),
        0xac..=0xad => Effect::Turns(ValType::I32, ValType::I64),
        0xae..=0xaf => Effect::Turns(ValType::F32, ValType::I64),
        0xb0..=0xb1 | 0xbd => Effect::Turns(ValType::F64, ValType::I64),
        0xb2..=0xb3 | 0xbe => Effect::Turns(ValType::I32, ValType::F32),
        0xb4..=0xb5 => Effect::Turns(ValType::I64, ValType::F32),
        0xb6 => Effect::Turns(ValType::F64, ValType::F32),
        0xb7..=0xb8 => Effect::Turns(ValType::I32, ValType::F64),
        0xb9..=0xba | 0xbf => Effect::Turns(ValType::I64, ValType::F64),
        0xbb => Effect::Turns(ValType::F32, ValType::F64),
        _ => Effect::Untyped,
    }
}

/// The effect of a conversion that saturates, by the number after FC (Core 5.4.7).
#[tactic(auto, unfolding(crate::specs::Numeric::truncation))]
pub fn truncation_effect(number: u32) -> Effect
    ensures { shape_of result ≡ truncation number }
{
    match number {
        0..=1 => Effect::Turns(ValType::F32, ValType::I32),
        2..=3 => Effect::Turns(ValType::F64, ValType::I32),
        4..=5 => Effect::Turns(ValType::F32, ValType::I64),
        6..=7 => Effect::Turns(ValType::F64, ValType::I64),
        _ => Effect::Untyped,
    }
}
