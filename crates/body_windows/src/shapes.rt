//! Shapes of numbers and instructions that are quick to tell.
ghost use Rattle.std.specs.Prelude.{◌≡◌, ◌⊎◌, ◌+◌, ◌-◌, ◌<◌, ◌≤◌, length, IsTrue};
ghost use Rattle.wasm_instr.specs.declared.outline.Outline.TheVariants as outlines;
ghost use Rattle.body_windows.specs.Quick.{IsNumber, IsFree};

use crate::opcodes::{
    is_bare, is_branch, is_float, is_local, is_long_constant, is_long_float, is_numeric,
};

/// Whether a number of one byte stands there.
#[inline(always)]
pub fn is_short(bytes: &[u8], at: usize) -> bool
    requires { at < length bytes.now }
    ensures { IsTrue result → IsNumber bytes.now at 1 }
{
    bytes[at] < 0x80
}

/// Whether a number of five bytes stands there, as a linker writes them: below 2^31, and not negative.
#[inline(always)]
pub fn is_window(bytes: &[u8], at: usize) -> bool
    requires { at ≤ length bytes.now }
    ensures { IsTrue result → IsNumber bytes.now at 5 }
{
    if bytes.len() - at < 5 {
        return false;
    }
    bytes[at] >= 0x80
        && bytes[at + 1] >= 0x80
        && bytes[at + 2] >= 0x80
        && bytes[at + 3] >= 0x80
        && bytes[at + 4] < 0x08
}

/// How many bytes the number there has, where they are at most three, and three are left; else 0.
#[inline(always)]
pub fn number_len(bytes: &[u8], at: usize) -> usize
    requires { at ≤ length bytes.now }
    ensures few { result ≤ 3 }
    ensures number { 0 < result → IsNumber bytes.now at result }
{
    if bytes.len() - at < 3 {
        0
    } else if bytes[at] < 0x80 {
        1
    } else if bytes[at + 1] < 0x80 {
        2
    } else if bytes[at + 2] < 0x80 {
        3
    } else {
        0
    }
}

/// How many bytes an opcode there and the number behind it have, where the number is short; else 0.
#[inline(always)]
fn len_with_number(bytes: &[u8], at: usize) -> usize
    requires { at < length bytes.now }
    ensures few { result ≤ 4 }
    ensures number { 0 < result → IsNumber bytes.now (at + 1) (result - 1) }
{
    let len = number_len(bytes, at + 1);
    if len == 0 {
        return 0;
    }
    len + 1
}

/// How many bytes the instruction there has, where it does nothing to blocks, has no immediate that can be
/// a reference, and is short; else 0.
#[inline(always)]
pub fn plain_len(bytes: &[u8], at: usize) -> usize
    requires { at < length bytes.now }
    ensures few { result ≤ 9 }
    ensures free { 0 < result → IsFree bytes.now at outlines.Other (at + result) }
{
    let op = bytes[at];
    if is_numeric(op) || is_bare(op) {
        return 1;
    }
    if is_local(op) || is_branch(op) {
        return len_with_number(bytes, at);
    }
    // Apart: in one test with the two above it would cost each instruction of the pass a step.
    if is_long_constant(op) {
        return len_with_number(bytes, at);
    }
    if is_float(op) && bytes.len() - at >= 5 {
        return 5;
    }
    if is_long_float(op) && bytes.len() - at >= 9 {
        return 9;
    }
    0
}

/// Whether it is the type of a block without a value, or with one of a number type.
#[inline(always)]
pub fn is_short_kind(kind: u8) -> bool
    ensures { IsTrue result → (kind ≡ 0x40) ⊎ ((0x7c ≤ kind) × (kind ≤ 0x7f)) }
{
    matches!(kind, 0x40 | 0x7c..=0x7f)
}
