//! The opcodes that the machine names (Core 5.4).

/// `unreachable`.
pub(crate) const UNREACHABLE: u8 = 0x00;

/// `nop`.
pub(crate) const NOP: u8 = 0x01;

/// `block`.
pub(crate) const BLOCK: u8 = 0x02;

/// `loop`.
pub(crate) const LOOP: u8 = 0x03;

/// `if`.
pub(crate) const IF: u8 = 0x04;

/// `else`.
pub(crate) const ELSE: u8 = 0x05;

/// `end`.
pub(crate) const END: u8 = 0x0B;

/// `br`.
pub(crate) const BR: u8 = 0x0C;

/// `return`.
pub(crate) const RETURN: u8 = 0x0F;

/// `drop`.
pub(crate) const DROP: u8 = 0x1A;

/// `select`.
pub(crate) const SELECT: u8 = 0x1B;

/// `select` with the types of its operands.
pub(crate) const SELECT_TYPED: u8 = 0x1C;

/// `local.get`.
pub(crate) const LOCAL_GET: u8 = 0x20;

/// `local.set`.
pub(crate) const LOCAL_SET: u8 = 0x21;

/// `local.tee`.
pub(crate) const LOCAL_TEE: u8 = 0x22;

/// `f32.const`.
pub(crate) const F32_CONST: u8 = 0x43;

/// `f64.const`.
pub(crate) const F64_CONST: u8 = 0x44;

/// The first byte of the conversions that saturate.
pub(crate) const NUMBERED: u8 = 0xFC;
