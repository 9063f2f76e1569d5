//! Outlines: what a scanner of bodies has to know of an instruction.
ghost use Rattle.std.specs.Prelude.{◌≡◌, Err};
ghost use Rattle.wasm_grammar.specs.Fault.{Gives};
ghost use Rattle.wasm_grammar.specs.declared.fault.Stop.{Stop};
ghost use Rattle.wasm_grammar.specs.declared.fault.ReadFault.TheVariants.{Stopped};
ghost use Rattle.wasm_instr.specs.Bodies.{stepped};
ghost use Rattle.wasm_instr.specs.declared.instr.Instr.TheVariants as instrs;
ghost use Rattle.wasm_instr.specs.Skimming.{is_index, outline_of, outline_step};

use crate::instr::{BlockKind, Instr};
use wasm_grammar::{ReadFault, Stop};
use wl_base::Seq;

/// What a scanner has to know of an instruction.
#[derive(Clone, Copy, Debug, PartialEq, Eq)]
pub enum Outline {
    /// It neither opens, turns nor closes a block, and has no immediate that can be a reference.
    Other,
    /// It closes a block.
    End,
    /// It begins the second part of an `if`.
    Else,
    /// It opens a block.
    Block {
        /// Whether it is an `if`.
        may_else: bool,
        /// Whether its type is an index.
        index: bool,
    },
    /// It calls a function of given index.
    Call,
    /// It calls what stands in a table, by the index of its type.
    CallIndirect {
        /// The index of the table.
        table: u32,
    },
    /// It reads or writes a global.
    Global,
    /// It reads or writes memory at an offset.
    Access,
    /// It is an i32 that is given.
    I32Const,
}

impl BlockKind {
    /// Whether the type is an index.
    #[inline(always)]
    pub fn is_index(self) -> bool
        ensures { result ≡ is_index self }
    {
        match self {
            BlockKind::Index(_) => true,
            _ => false,
        }
    }
}

/// The outline of an instruction without immediates, by its opcode.
#[inline(always)]
pub fn plain_outline(opcode: u8) -> Outline
    ensures { result ≡ outline_of (instrs.Plain opcode) }
{
    match opcode {
        0x0b => Outline::End,
        0x05 => Outline::Else,
        _ => Outline::Other,
    }
}

impl Instr {
    /// The outline of the instruction.
    pub fn outline(&self) -> Outline
        ensures { result ≡ outline_of self.now }
    {
        match self {
            Instr::Plain(opcode) => plain_outline(*opcode),
            Instr::Block { opcode, kind } => Outline::Block {
                may_else: *opcode == 0x04,
                index: kind.is_index(),
            },
            Instr::Call(_) => Outline::Call,
            Instr::CallIndirect { table, .. } => Outline::CallIndirect { table: *table },
            Instr::GlobalAt { .. } => Outline::Global,
            Instr::Access { .. } => Outline::Access,
            Instr::I32Const(_) => Outline::I32Const,
            _ => Outline::Other,
        }
    }
}

/// Opens and closes the blocks of an instruction of this outline at this place. The list has, for
/// each open block, whether it may still have an `else`, the outermost first. Where it fails, by an
/// `else` at a wrong place or for want of memory, the list is as before.
#[inline(always)]
pub fn outline_step(opens: &mut Seq<bool>, place: usize, outline: Outline) -> Result<(), ReadFault>
    ensures value { Gives (λ _. opens.new) result (stepped place (outline_step opens.old outline)) }
    ensures refused { (fault : ReadFault) → result ≡ Err fault → opens.new ≡ opens.old }
{
    match outline {
        Outline::End => {
            opens.pop();
            Ok(())
        }
        Outline::Else => match opens.as_slice().last() {
            Some(true) => {
                opens.set_last(false);
                Ok(())
            }
            _ => Err(ReadFault::Stopped(Stop::Broken(place))),
        },
        Outline::Block { may_else, .. } => Ok(opens.push(may_else)?),
        _ => Ok(()),
    }
}
