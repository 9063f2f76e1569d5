//! Numbers as their signs have them: signed order, division and shifts are those of the bits, moved or
//! negated (Core 4.3.2, `signed`).
ghost use Rattle.std.specs.Prelude.{◌≡◌, ◌-◌, ◌/◌, ◌%◌, ◌^◌, ◌<◌, if◌then◌else◌};
ghost use Rattle.run_rules.specs.Numbers.{bits, biased, is_negative, negated, magnitude, extended};
ghost use Rattle.run_rules.specs.Numbers.{quotient_signed, remainder_signed, overflows};

use crate::bits::shift_right;
use crate::width::greatest;
use wasm_types::ValType;

/// The number with its sign bit turned, so that signed order is order.
#[tactic(auto, unfolding(run_rules::specs::Numbers::biased))]
pub(crate) fn bias(t: ValType, a: u64) -> u64
    requires { a < 2 ^ bits t }
    ensures { result ≡ biased (bits t) a }
{
    match t {
        ValType::I32 | ValType::F32 => (a + 0x8000_0000) % 0x1_0000_0000,
        ValType::I64 | ValType::F64 => a.wrapping_add(0x8000_0000_0000_0000),
    }
}

/// Whether the sign bit is set.
fn is_low(t: ValType, a: u64) -> bool
    ensures { result ≡ is_negative (bits t) a }
{
    match t {
        ValType::I32 | ValType::F32 => 0x8000_0000 <= a,
        ValType::I64 | ValType::F64 => 0x8000_0000_0000_0000 <= a,
    }
}

/// The negative of a number.
fn negate(t: ValType, a: u64) -> u64
    requires a_in { a < 2 ^ bits t }
    ensures value { result ≡ negated (bits t) a }
    ensures fits { result < 2 ^ bits t }
{
    match t {
        ValType::I32 | ValType::F32 => (0x1_0000_0000 - a) % 0x1_0000_0000,
        ValType::I64 | ValType::F64 => 0u64.wrapping_sub(a),
    }
}

/// The number without its sign.
fn size_of(t: ValType, a: u64) -> u64
    requires a_in { a < 2 ^ bits t }
    ensures value { result ≡ magnitude (bits t) a }
    ensures fits { result < 2 ^ bits t }
{
    if is_low(t, a) { negate(t, a) } else { a }
}

/// `div_s`, where the divisor is not 0.
pub(crate) fn divide_signed(t: ValType, a: u64, b: u64) -> u64
    requires a_in { a < 2 ^ bits t }
    requires b_in { b < 2 ^ bits t }
    requires divisor { 0 < b }
    ensures value { result ≡ quotient_signed (bits t) a b }
    ensures fits { result < 2 ^ bits t }
{
    let q = size_of(t, a) / size_of(t, b);
    if is_low(t, a) == is_low(t, b) {
        q
    } else {
        negate(t, q)
    }
}

/// `rem_s`, where the divisor is not 0.
pub(crate) fn rest_signed(t: ValType, a: u64, b: u64) -> u64
    requires a_in { a < 2 ^ bits t }
    requires b_in { b < 2 ^ bits t }
    requires divisor { 0 < b }
    ensures value { result ≡ remainder_signed (bits t) a b }
    ensures fits { result < 2 ^ bits t }
{
    let r = size_of(t, a) % size_of(t, b);
    if is_low(t, a) { negate(t, r) } else { r }
}

/// Whether a signed quotient leaves the width: that of the least number by -1.
pub(crate) fn leaves_width(t: ValType, a: u64, b: u64) -> bool
    ensures { result ≡ overflows (bits t) a b }
{
    match t {
        ValType::I32 | ValType::F32 => a == 0x8000_0000 && b == 0xFFFF_FFFF,
        ValType::I64 | ValType::F64 => a == 0x8000_0000_0000_0000 && b == 0xFFFF_FFFF_FFFF_FFFF,
    }
}

/// `shr_s`.
pub(crate) fn shift_right_signed(t: ValType, a: u64, b: u64) -> u64
    requires a_in { a < 2 ^ bits t }
    ensures value { result ≡ (if is_negative (bits t) a then (2 ^ bits t - 1) - (2 ^ bits t - 1 - a)
        / 2 ^ (b % bits t) else a / 2 ^ (b % bits t)) }
    ensures fits { result < 2 ^ bits t }
{
    if is_low(t, a) {
        let top = greatest(t);
        top - shift_right(t, top - a, b)
    } else {
        shift_right(t, a, b)
    }
}

/// The low 8 bits, as a signed number of 32.
pub fn extend_8_32(a: u64) -> u32
    ensures { result ≡ extended 8 32 a }
{
    let b = a % 256;
    if 128 <= b {
        (b + 0xFFFF_FF00) as u32
    } else {
        b as u32
    }
}

/// The low 16 bits, as a signed number of 32.
pub fn extend_16_32(a: u64) -> u32
    ensures { result ≡ extended 16 32 a }
{
    let b = a % 0x1_0000;
    if 0x8000 <= b {
        (b + 0xFFFF_0000) as u32
    } else {
        b as u32
    }
}

/// The low 8 bits, as a signed number of 64.
pub fn extend_8_64(a: u64) -> u64
    ensures { result ≡ extended 8 64 a }
{
    let b = a % 256;
    if 128 <= b {
        b + 0xFFFF_FFFF_FFFF_FF00
    } else {
        b
    }
}

/// The low 16 bits, as a signed number of 64.
pub fn extend_16_64(a: u64) -> u64
    ensures { result ≡ extended 16 64 a }
{
    let b = a % 0x1_0000;
    if 0x8000 <= b {
        b + 0xFFFF_FFFF_FFFF_0000
    } else {
        b
    }
}

/// The low 32 bits, as a signed number of 64.
pub fn extend_32_64(a: u64) -> u64
    ensures { result ≡ extended 32 64 a }
{
    let b = a % 0x1_0000_0000;
    if 0x8000_0000 <= b {
        b + 0xFFFF_FFFF_0000_0000
    } else {
        b
    }
}
