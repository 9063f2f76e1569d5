//! Functions of bits: those of each, counts, shifts and rotations (Core 4.3.2).
ghost use Rattle.std.specs.Prelude.{◌≡◌, ◌+◌, ◌-◌, ◌*◌, ◌/◌, ◌%◌, ◌^◌, ◌<◌, bit_and, bit_or};
ghost use Rattle.std.specs.Prelude.{bit_xor, count_ones};
ghost use Rattle.std.specs.Int.Count.{count_leading_zeros, count_trailing_zeros};
ghost use Rattle.run_rules.specs.Numbers.{bits};

use crate::width::width;
use wasm_types::ValType;

/// `and`.
pub(crate) fn both_bits(t: ValType, a: u64, b: u64) -> u64
    requires a_in { a < 2 ^ bits t }
    requires b_in { b < 2 ^ bits t }
    ensures value { result ≡ bit_and a b }
    ensures fits { result < 2 ^ bits t }
{
    a & b
}

/// `or`.
pub(crate) fn either_bits(t: ValType, a: u64, b: u64) -> u64
    requires a_in { a < 2 ^ bits t }
    requires b_in { b < 2 ^ bits t }
    ensures value { result ≡ bit_or a b }
    ensures fits { result < 2 ^ bits t }
{
    a | b
}

/// `xor`.
pub(crate) fn unlike_bits(t: ValType, a: u64, b: u64) -> u64
    requires a_in { a < 2 ^ bits t }
    requires b_in { b < 2 ^ bits t }
    ensures value { result ≡ bit_xor a b }
    ensures fits { result < 2 ^ bits t }
{
    a ^ b
}

/// `shl`, by the second number modulo the width.
pub(crate) fn shift_left(t: ValType, a: u64, b: u64) -> u64
    requires a_in { a < 2 ^ bits t }
    ensures value { result ≡ (a * 2 ^ (b % bits t)) % 2 ^ bits t }
    ensures fits { result < 2 ^ bits t }
{
    match t {
        ValType::I32 | ValType::F32 => (a << (b % 32)) % 0x1_0000_0000,
        ValType::I64 | ValType::F64 => a << (b % 64),
    }
}

/// `shr_u`, by the second number modulo the width.
pub(crate) fn shift_right(t: ValType, a: u64, b: u64) -> u64
    requires a_in { a < 2 ^ bits t }
    ensures value { result ≡ a / 2 ^ (b % bits t) }
    ensures fits { result < 2 ^ bits t }
{
    a >> (b % width(t))
}

/// `rotl`.
pub(crate) fn rotate_left(t: ValType, a: u64, b: u64) -> u64
    requires a_in { a < 2 ^ bits t }
    ensures value { result ≡ (a * 2 ^ (b % bits t)) % 2 ^ bits t + a / 2 ^ (bits t - b % bits t) }
    ensures fits { result < 2 ^ bits t }
{
    let by = b % width(t);
    if by == 0 {
        return a;
    }
    shift_left(t, a, b) + (a >> (width(t) - by))
}

/// `rotr`.
pub(crate) fn rotate_right(t: ValType, a: u64, b: u64) -> u64
    requires a_in { a < 2 ^ bits t }
    ensures value { result ≡ a / 2 ^ (b % bits t) + (a * 2 ^ (bits t - b % bits t)) % 2 ^ bits t }
    ensures fits { result < 2 ^ bits t }
{
    let by = b % width(t);
    if by == 0 {
        return a;
    }
    (a >> by) + shift_left(t, a, width(t) - by)
}

/// `clz`.
pub(crate) fn leading_zeros(t: ValType, a: u64) -> u64
    requires a_in { a < 2 ^ bits t }
    ensures value { result ≡ count_leading_zeros (bits t) a }
    ensures fits { result < 2 ^ bits t }
{
    match t {
        ValType::I32 | ValType::F32 => (a as u32).leading_zeros() as u64,
        ValType::I64 | ValType::F64 => a.leading_zeros() as u64,
    }
}

/// `ctz`.
pub(crate) fn trailing_zeros(t: ValType, a: u64) -> u64
    requires a_in { a < 2 ^ bits t }
    ensures value { result ≡ count_trailing_zeros (bits t) a }
    ensures fits { result < 2 ^ bits t }
{
    match t {
        ValType::I32 | ValType::F32 => (a as u32).trailing_zeros() as u64,
        ValType::I64 | ValType::F64 => a.trailing_zeros() as u64,
    }
}

/// `popcnt`.
pub(crate) fn ones_in(t: ValType, a: u64) -> u64
    ensures value { result ≡ count_ones a }
    ensures fits { result < 2 ^ bits t }
{
    a.count_ones() as u64
}
