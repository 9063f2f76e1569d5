//! Opcodes without immediates, by what they compute (Core 5.4.7).
ghost use Rattle.std.specs.Prelude.{◌≡◌};
ghost use Rattle.run_rules.specs.Numbers.{class_of};
ghost use Rattle.run_numbers.specs.Told.{IsNarrow};

use run_rules::Class;
use wasm_types::ValType;

/// What an opcode computes: its class, the types of its operands and of what it gives, and its place among
/// the rows of that class.
#[tactic(auto, unfolding(run_rules::specs::Numbers::class_of))]
pub fn class_at(op: u8) -> Class
    ensures value { result ≡ class_of op }
    ensures narrow { IsNarrow result }
{
    match op {
        0x45 => Class::Tests(ValType::I32),
        0x46..=0x4F => Class::Compares(ValType::I32, op - 0x46),
        0x50 => Class::Tests(ValType::I64),
        0x51..=0x5A => Class::Compares(ValType::I64, op - 0x51),
        0x5B..=0x66 => Class::Carries,
        0x67..=0x69 => Class::Ones(ValType::I32, op - 0x67),
        0x6A..=0x78 => Class::Twos(ValType::I32, op - 0x6A),
        0x79..=0x7B => Class::Ones(ValType::I64, op - 0x79),
        0x7C..=0x8A => Class::Twos(ValType::I64, op - 0x7C),
        0x8B..=0xA6 => Class::Carries,
        0xA7 => Class::Converts(ValType::I64, ValType::I32, 0),
        0xA8..=0xAB => Class::Carries,
        0xAC => Class::Converts(ValType::I32, ValType::I64, 1),
        0xAD => Class::Converts(ValType::I32, ValType::I64, 2),
        0xAE..=0xBF => Class::Carries,
        0xC0 => Class::Converts(ValType::I32, ValType::I32, 3),
        0xC1 => Class::Converts(ValType::I32, ValType::I32, 4),
        0xC2 => Class::Converts(ValType::I64, ValType::I64, 5),
        0xC3 => Class::Converts(ValType::I64, ValType::I64, 6),
        0xC4 => Class::Converts(ValType::I64, ValType::I64, 7),
        _ => Class::Unknown,
    }
}
