//! Types of values.
ghost use Rattle.std.specs.Prelude.{◌≡◌};
ghost use Rattle.wasm_grammar.specs.Fault.{Reads};
ghost use Rattle.wasm_types.specs.Types.{val_type_of, val_type_at};

use std::alloc::Global;
use wasm_grammar::{Form, ReadFault, Spell, Stop, byte_at, place, put_byte};
use wl_base::{Item, OutOfMemory, Seq};

/// A type of values that is linked (Core 5.3.4, of numbers alone).
#[derive(Clone, Copy, Debug)]
pub enum ValType {
    /// Integers of 32 bits.
    I32,
    /// Integers of 64 bits.
    I64,
    /// Floats of 32 bits.
    F32,
    /// Floats of 64 bits.
    F64,
}

/// The type that a byte at this place stands for. v128, funcref and externref are foreign, and any
/// other byte is broken.
pub fn val_type_of(place: usize, byte: u8) -> Result<ValType, Stop>
    ensures { result ≡ val_type_of place byte }
{
    match byte {
        0x7f => Ok(ValType::I32),
        0x7e => Ok(ValType::I64),
        0x7d => Ok(ValType::F32),
        0x7c => Ok(ValType::F64),
        0x7b | 0x70 | 0x6f => Err(Stop::Foreign(Item::ValueType(byte))),
        _ => Err(Stop::Broken(place)),
    }
}

/// The value type at the front, and the bytes after it (Core 5.3.4). It takes no memory.
#[tactic(auto, unfolding(crate::specs::Types::val_type_at))]
pub fn plain_val_type_at(end: usize, bytes: &[u8]) -> Result<(ValType, &[u8]), Stop>
    ensures { Reads (λ x. (x.0, x.1.now)) result (val_type_at end bytes.now) }
{
    let (byte, rest) = byte_at(end, bytes)?;
    let kind = val_type_of(place(end, bytes), byte)?;
    Ok((kind, rest))
}

impl Form for ValType {
    ghost use Rattle.wasm_types.specs.Types.{SpellsValType, val_type_at};
    ghost use Rattle.wasm_types.specs.TypeLaws.{val_type_reader};

    ghost spells = { SpellsValType };

    ghost read_at = { val_type_at };

    ghost exact = { val_type_reader };

    fn form_at(_alloc: Global, end: usize, bytes: &[u8]) -> Result<(ValType, &[u8]), ReadFault> {
        Ok(plain_val_type_at(end, bytes)?)
    }
}

impl Spell for ValType {
    fn put(&self, to: &mut Seq<u8>) -> Result<(), OutOfMemory> {
        put_byte(to, self.byte())
    }
}
