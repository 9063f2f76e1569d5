//! What typing is about: operands, the shapes of instructions, and the blocks that are open.

use wasm_types::{FuncType, ValType};
use wl_base::Seq;
use wl_stack::Stack;

/// The type of an operand, as far as it is known (Core, appendix A.3).
#[derive(Clone, Copy, Debug)]
pub enum Operand {
    /// It has this type.
    Known(ValType),
    /// It has any type: it stands behind an instruction that never comes behind itself.
    Unknown,
}

/// Which instruction opened a block (Core 3.3.8).
#[derive(Clone, Copy, PartialEq, Eq, Debug)]
pub enum Opener {
    /// `block`, a function's body, or an `if` from its `else` on.
    Block,
    /// `loop`, whose label carries its parameters.
    Loop,
    /// `if`, up to its `else`.
    If,
}

/// What typing asks of an instruction, with what its indices name in their place (Core 3.3).
#[derive(Drop)]
pub enum Shape {
    /// It takes the parameters and gives the results, and has no other typing.
    Typed(FuncType),
    /// `drop`: it takes an operand of any type (Core 3.3.4).
    Drops,
    /// `select` without types: it takes two operands of one type and an i32, and gives that type
    /// (Core 3.3.4).
    Selects,
    /// `unreachable` or `return`: it takes these types, and never comes behind itself (Core 3.3.8).
    Leaves(Seq<ValType>),
    /// `br`, with its label.
    Branches(u32),
    /// `br_if`, with its label.
    BranchesIf(u32),
    /// `br_table`.
    BranchesBy {
        /// The labels that the operand chooses from.
        labels: Seq<u32>,
        /// The label for every other operand.
        last: u32,
    },
    /// `block`, `loop` or `if`, with the block's type.
    Opens(Opener, FuncType),
    /// `else`.
    Else,
    /// `end`.
    End,
    /// It has no typing: it names what its context doesn't have, or breaks a side condition.
    Untyped,
}

/// A block that is open (a control frame of Core, appendix A.3).
#[derive(Drop)]
pub struct Frame {
    /// The instruction that opened it.
    pub opener: Opener,
    /// Its parameters and results.
    pub kind: FuncType,
    /// The operands that the block has put and not taken, the newest first.
    pub operands: Stack<Operand>,
    /// Whether an instruction of the block never comes behind itself; then any operands lie below
    /// its own.
    pub unreachable: bool,
}
