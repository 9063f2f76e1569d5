//! Numbers of an integer type, as their bits in a `u64`.
ghost use Rattle.std.specs.Prelude.{◌≡◌, IfSome, ◌-◌, ◌^◌, ◌<◌};
ghost use Rattle.run_rules.specs.Numbers.{bits, number_in, value_of};

use run_rules::Value;
use wasm_types::ValType;

/// The bits of a value, where it is of that integer type.
pub fn number_of(t: ValType, v: Value) -> Option<u64>
    ensures value { result ≡ number_in t v }
    ensures fits { IfSome result (λ n. n < 2 ^ bits t) }
{
    match (t, v) {
        (ValType::I32, Value::I32(n)) => Some(n as u64),
        (ValType::I64, Value::I64(n)) => Some(n),
        _ => None,
    }
}

/// The value of a type with these bits.
pub fn value_at(t: ValType, n: u64) -> Value
    requires { n < 2 ^ bits t }
    ensures { result ≡ value_of t n }
{
    match t {
        ValType::I32 => Value::I32(n as u32),
        ValType::I64 => Value::I64(n),
        ValType::F32 => Value::F32(n as u32),
        ValType::F64 => Value::F64(n),
    }
}

/// How many bits a type has.
pub(crate) fn width(t: ValType) -> u64
    ensures { result ≡ bits t }
{
    match t {
        ValType::I32 => 32,
        ValType::I64 => 64,
        ValType::F32 => 32,
        ValType::F64 => 64,
    }
}

/// The greatest number of a type.
pub(crate) fn greatest(t: ValType) -> u64
    ensures { result ≡ 2 ^ bits t - 1 }
{
    match t {
        ValType::I32 | ValType::F32 => 0xFFFF_FFFF,
        ValType::I64 | ValType::F64 => 0xFFFF_FFFF_FFFF_FFFF,
    }
}
