//! The opcodes by which an instruction's typing is chosen (Core 5.4).

/// `unreachable`.
pub const UNREACHABLE: u8 = 0x00;
/// `nop`.
pub const NOP: u8 = 0x01;
/// `loop`.
pub const LOOP: u8 = 0x03;
/// `if`.
pub const IF: u8 = 0x04;
/// `else`.
pub const ELSE: u8 = 0x05;
/// `end`.
pub const END: u8 = 0x0b;
/// `br`.
pub const BR: u8 = 0x0c;
/// `return`.
pub const RETURN: u8 = 0x0f;
/// `drop`.
pub const DROP: u8 = 0x1a;
/// `select` without types.
pub const SELECT: u8 = 0x1b;
/// `local.get`.
pub const LOCAL_GET: u8 = 0x20;
/// `local.set`.
pub const LOCAL_SET: u8 = 0x21;
/// `global.get`.
pub const GLOBAL_GET: u8 = 0x23;
