//! The rows of the numeric table by their places, at a width (Core 4.3.2).
ghost use Rattle.std.specs.Prelude.{◌≡◌, true, ◌+◌, ◌-◌, ◌*◌, ◌%◌, ◌^◌, ◌<◌};
ghost use Rattle.run_rules.specs.Numbers.{bits, compared, one_of, two_of, converted};
ghost use Rattle.run_numbers.specs.Told.{Answers, narrow};
ghost use Rattle.wasm_types.specs.declared.value.ValType.TheVariants as types;

use crate::bits::{
    both_bits, either_bits, leading_zeros, ones_in, rotate_left, rotate_right, shift_left,
    shift_right, trailing_zeros, unlike_bits,
};
use crate::signed::{
    bias, divide_signed, extend_8_32, extend_8_64, extend_16_32, extend_16_64, extend_32_64,
    leaves_width, rest_signed, shift_right_signed,
};
use run_rules::TrapKind;
use wasm_types::ValType;

/// A comparison, by its place: eq, ne, lt_s, lt_u, gt_s, gt_u, le_s, le_u, ge_s, ge_u.
pub fn compare(k: u8, t: ValType, a: u64, b: u64) -> bool
    requires a_in { a < 2 ^ bits t }
    requires b_in { b < 2 ^ bits t }
    ensures { result ≡ compared k (bits t) a b }
{
    match k {
        0 => a == b,
        1 => a != b,
        2 => bias(t, a) < bias(t, b),
        3 => a < b,
        4 => bias(t, b) < bias(t, a),
        5 => b < a,
        6 => bias(t, a) <= bias(t, b),
        7 => a <= b,
        8 => bias(t, b) <= bias(t, a),
        9 => b <= a,
        _ => false,
    }
}

/// `add`.
fn plus(t: ValType, a: u64, b: u64) -> u64
    requires a_in { a < 2 ^ bits t }
    requires b_in { b < 2 ^ bits t }
    ensures value { result ≡ (a + b) % 2 ^ bits t }
    ensures fits { result < 2 ^ bits t }
{
    match t {
        ValType::I32 | ValType::F32 => (a + b) % 0x1_0000_0000,
        ValType::I64 | ValType::F64 => a.wrapping_add(b),
    }
}

/// `sub`.
fn minus(t: ValType, a: u64, b: u64) -> u64
    requires a_in { a < 2 ^ bits t }
    requires b_in { b < 2 ^ bits t }
    ensures value { result ≡ (a + (2 ^ bits t - b)) % 2 ^ bits t }
    ensures fits { result < 2 ^ bits t }
{
    match t {
        ValType::I32 | ValType::F32 => (a + (0x1_0000_0000 - b)) % 0x1_0000_0000,
        ValType::I64 | ValType::F64 => a.wrapping_sub(b),
    }
}

/// `mul`.
fn times(t: ValType, a: u64, b: u64) -> u64
    requires a_in { a < 2 ^ bits t }
    requires b_in { b < 2 ^ bits t }
    ensures value { result ≡ (a * b) % 2 ^ bits t }
    ensures fits { result < 2 ^ bits t }
{
    match t {
        ValType::I32 | ValType::F32 => (a * b) % 0x1_0000_0000,
        ValType::I64 | ValType::F64 => a.wrapping_mul(b),
    }
}

/// A function of one number, by its place: clz, ctz, popcnt.
pub fn act_on_one(k: u8, t: ValType, a: u64) -> u64
    requires a_in { a < 2 ^ bits t }
    ensures value { result ≡ one_of k (bits t) a }
    ensures fits { result < 2 ^ bits t }
{
    match k {
        0 => leading_zeros(t, a),
        1 => trailing_zeros(t, a),
        2 => ones_in(t, a),
        _ => 0,
    }
}

/// The answer of a function of two numbers.
#[derive(Clone, Copy)]
pub enum Answered {
    /// A number.
    Number(u64),
    /// A trap.
    Trap(TrapKind),
}

/// A function of two numbers, by its place: add, sub, mul, div_s, div_u, rem_s, rem_u, and, or, xor, shl, shr_s,
/// shr_u, rotl, rotr.
pub fn act_on_two(k: u8, t: ValType, a: u64, b: u64) -> Answered
    requires a_in { a < 2 ^ bits t }
    requires b_in { b < 2 ^ bits t }
    ensures { Answers (two_of k (bits t) a b) (bits t) result }
{
    match k {
        0 => Answered::Number(plus(t, a, b)),
        1 => Answered::Number(minus(t, a, b)),
        2 => Answered::Number(times(t, a, b)),
        3 => {
            if b == 0 {
                Answered::Trap(TrapKind::DivideByZero)
            } else if leaves_width(t, a, b) {
                Answered::Trap(TrapKind::IntegerOverflow)
            } else {
                Answered::Number(divide_signed(t, a, b))
            }
        }
        4 => if b == 0 {
            Answered::Trap(TrapKind::DivideByZero)
        } else {
            Answered::Number(a / b)
        },
        5 => if b == 0 {
            Answered::Trap(TrapKind::DivideByZero)
        } else {
            Answered::Number(rest_signed(t, a, b))
        },
        6 => if b == 0 {
            Answered::Trap(TrapKind::DivideByZero)
        } else {
            Answered::Number(a % b)
        },
        7 => Answered::Number(both_bits(t, a, b)),
        8 => Answered::Number(either_bits(t, a, b)),
        9 => Answered::Number(unlike_bits(t, a, b)),
        10 => Answered::Number(shift_left(t, a, b)),
        11 => Answered::Number(shift_right_signed(t, a, b)),
        12 => Answered::Number(shift_right(t, a, b)),
        13 => Answered::Number(rotate_left(t, a, b)),
        14 => Answered::Number(rotate_right(t, a, b)),
        _ => Answered::Number(0),
    }
}

/// A conversion to 32 bits, by its place: from 64 bits (0), of the low 8 bits (3) or 16 (4).
pub fn convert_to_32(k: u8, a: u64) -> u32
    requires { narrow types.I32 k ≡ true }
    ensures { result ≡ converted k a }
{
    match k {
        0 => (a % 0x1_0000_0000) as u32,
        3 => extend_8_32(a),
        4 => extend_16_32(a),
        _ => 0,
    }
}

/// A conversion to 64 bits, by its place: from 32 bits, signed (1) or not (2), of the low 8 bits (5), 16 (6) or 32 (7).
pub fn convert_to_64(k: u8, a: u64) -> u64
    ensures { result ≡ converted k a }
{
    match k {
        0 => a % 0x1_0000_0000,
        1 => extend_32_64(a),
        2 => a,
        3 => extend_8_32(a) as u64,
        4 => extend_16_32(a) as u64,
        5 => extend_8_64(a),
        6 => extend_16_64(a),
        7 => extend_32_64(a),
        _ => 0,
    }
}
