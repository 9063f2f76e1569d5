//! Loads, stores and the size of the memory.
ghost use Rattle.std.specs.Prelude.{◌≡◌, ℕ, ◌+◌, ◌<◌, ◌≤◌, ◌^◌, List, ◌∷◌, [], length, slice_get};
ghost use Rattle.std.specs.Prelude.{IfOk, Some};
ghost use Rattle.run_rules.specs.Memory.{loaded, reach};
ghost use Rattle.run_rules.specs.Own.{loads_at, stores_at, reached, grow_within, copy, fill, moved};
ghost use Rattle.run_rules.specs.Own.{with_memory};
ghost use Rattle.run_model.specs.Access.{reach_of, wide_of, IsKnown, IsSound};
ghost use Rattle.run_model.specs.Views.{Turns, inner_of};

use crate::state::{Active, After, Stop};
use run_numbers::{
    extend_8_32, extend_8_64, extend_16_32, extend_16_64, extend_32_64, number_1, number_2,
    number_4, number_8, number_of, put_at,
};
use run_rules::{TrapKind, Value};
use wasm_types::ValType;
use wl_base::OutOfMemory;

/// What a load or a store moves.
#[derive(Clone, Copy)]
pub(crate) struct Wide {
    /// The type of the value.
    pub kind: ValType,
    /// How many bytes.
    pub bytes: usize,
    /// Whether a load fills up by the sign.
    pub signed: bool,
}

/// What an opcode with an alignment and an offset is.
#[derive(Clone, Copy)]
pub(crate) enum Reached {
    /// A load.
    Loads(Wide),
    /// A store.
    Stores(Wide),
    /// It is carried.
    Carries,
    /// Neither.
    Neither,
}

fn moves(kind: ValType, bytes: usize, signed: bool) -> Wide
    ensures { result ≡ record { kind = kind; bytes = bytes; signed = signed } }
{
    Wide {
        kind,
        bytes,
        signed,
    }
}

fn reach_at(op: u8) -> Reached
    ensures value { reach op ≡ reach_of result }
    ensures sound { IsSound result }
{
    match op {
        0x28 => Reached::Loads(moves(ValType::I32, 4, false)),
        0x29 => Reached::Loads(moves(ValType::I64, 8, false)),
        0x2A | 0x2B | 0x38 | 0x39 => Reached::Carries,
        0x2C => Reached::Loads(moves(ValType::I32, 1, true)),
        0x2D => Reached::Loads(moves(ValType::I32, 1, false)),
        0x2E => Reached::Loads(moves(ValType::I32, 2, true)),
        0x2F => Reached::Loads(moves(ValType::I32, 2, false)),
        0x30 => Reached::Loads(moves(ValType::I64, 1, true)),
        0x31 => Reached::Loads(moves(ValType::I64, 1, false)),
        0x32 => Reached::Loads(moves(ValType::I64, 2, true)),
        0x33 => Reached::Loads(moves(ValType::I64, 2, false)),
        0x34 => Reached::Loads(moves(ValType::I64, 4, true)),
        0x35 => Reached::Loads(moves(ValType::I64, 4, false)),
        0x36 => Reached::Stores(moves(ValType::I32, 4, false)),
        0x37 => Reached::Stores(moves(ValType::I64, 8, false)),
        0x3A => Reached::Stores(moves(ValType::I32, 1, false)),
        0x3B => Reached::Stores(moves(ValType::I32, 2, false)),
        0x3C => Reached::Stores(moves(ValType::I64, 1, false)),
        0x3D => Reached::Stores(moves(ValType::I64, 2, false)),
        0x3E => Reached::Stores(moves(ValType::I64, 4, false)),
        _ => Reached::Neither,
    }
}

// The value that bytes are loaded as.
fn load(w: Wide, bytes: &[u8]) -> Value
    requires sound { IsKnown w }
    requires long { length bytes.now ≡ w.bytes }
    ensures { result ≡ loaded (wide_of w) bytes.now }
{
    match w.kind {
        ValType::I32 => match w.bytes {
            1 => {
                let n = number_1(bytes);
                if w.signed {
                    Value::I32(extend_8_32(n))
                } else {
                    Value::I32(n as u32)
                }
            }
            2 => {
                let n = number_2(bytes);
                if w.signed {
                    Value::I32(extend_16_32(n))
                } else {
                    Value::I32(n as u32)
                }
            }
            4 => {
                let n = number_4(bytes);
                if w.signed {
                    unreachable!()
                } else {
                    Value::I32(n as u32)
                }
            }
            _ => unreachable!(),
        },
        ValType::I64 => match w.bytes {
            1 => {
                let n = number_1(bytes);
                if w.signed {
                    Value::I64(extend_8_64(n))
                } else {
                    Value::I64(n)
                }
            }
            2 => {
                let n = number_2(bytes);
                if w.signed {
                    Value::I64(extend_16_64(n))
                } else {
                    Value::I64(n)
                }
            }
            4 => {
                let n = number_4(bytes);
                if w.signed {
                    Value::I64(extend_32_64(n))
                } else {
                    Value::I64(n)
                }
            }
            8 => {
                let n = number_8(bytes);
                if w.signed {
                    unreachable!()
                } else {
                    Value::I64(n)
                }
            }
            _ => unreachable!(),
        },
        ValType::F32 => unreachable!(),
        ValType::F64 => unreachable!(),
    }
}

fn load_at(inner: &mut Active, w: Wide, at: usize) -> Result<After, OutOfMemory>
    requires sound { IsKnown w }
    requires place { inner.old.frame.place + 1 < 2 ^ 64 }
    requires at { at < 2 ^ 33 }
    ensures { IfOk result (λ after.
        Turns (loads_at (inner_of inner.old) (wide_of w) at inner.old.frame.layered.values) after
        inner.old inner.new) }
{
    let end = at + w.bytes;
    if inner.memory.len() < end {
        return Ok(After::Traps(TrapKind::MemoryBounds));
    }
    let v = load(w, &inner.memory[at..end]);
    inner.frame.layered.push(v)?;
    inner.frame.place += 1;
    Ok(After::Goes)
}

fn store_at(inner: &mut Active, w: Wide, at: usize, n: Option<u64>) -> After
    requires sound { w.bytes ≤ 8 }
    requires place { inner.old.frame.place + 1 < 2 ^ 64 }
    requires at { at < 2 ^ 33 }
    ensures { Turns (stores_at (inner_of inner.old) (wide_of w) at n inner.old.frame.layered.values)
        result inner.old inner.new }
{
    let Some(n) = n else {
        return After::Ends(Stop::Stuck);
    };
    if inner.memory.len() < at + w.bytes {
        return After::Traps(TrapKind::MemoryBounds);
    }
    put_at(inner.memory.as_mut_slice(), at, w.bytes, n);
    inner.frame.place += 1;
    After::Goes
}

/// A load or a store.
pub(crate) fn access(
    inner: &mut Active,
    memory: Option<u32>,
    op: u8,
    offset: u32,
) -> Result<After, OutOfMemory>
    requires { inner.old.frame.place + 1 < 2 ^ 64 }
    ensures { IfOk result (λ after.
        Turns (reached memory (inner_of inner.old) op offset (reach op)) after inner.old inner.new) }
{
    match reach_at(op) {
        Reached::Carries => Ok(After::Ends(Stop::Carried(op, 0))),
        Reached::Neither => Ok(After::Ends(Stop::Stuck)),
        Reached::Loads(w) => {
            if memory.is_none() {
                return Ok(After::Ends(Stop::Stuck));
            }
            match inner.frame.layered.pop() {
                Some(Value::I32(a)) => load_at(inner, w, a as usize + offset as usize),
                _ => Ok(After::Ends(Stop::Stuck)),
            }
        }
        Reached::Stores(w) => {
            if memory.is_none() {
                return Ok(After::Ends(Stop::Stuck));
            }
            let Some(v) = inner.frame.layered.pop() else {
                return Ok(After::Ends(Stop::Stuck));
            };
            match inner.frame.layered.pop() {
                Some(Value::I32(a)) => {
                    let n = number_of(w.kind, v);
                    Ok(store_at(inner, w, a as usize + offset as usize, n))
                }
                _ => Ok(After::Ends(Stop::Stuck)),
            }
        }
    }
}
