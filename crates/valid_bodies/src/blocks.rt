//! The blocks of a body that are open, as one pass over it has them: one stack of operands, cut at the heights at which
//! blocks began, and one list of their types. Both keep their room, so a block that opens takes no memory of its own.
//! Contracts see the frames of the rules, the innermost first.

ghost use Rattle.std.specs.Prelude.{◌≡◌, ◌≤◌, ◌-◌, [], ◌∷◌, length, map, take, drop, slice_get, OnOk};
ghost use Rattle.valid_rules.specs.Reading.{whole};
ghost use Rattle.valid_bodies.specs.Blocks.{Stands, kind_in, label_in, blocks_in};
ghost use Rattle.valid_bodies.specs.Steps.{is_open};

use crate::layer::Operands;
use std::alloc::Global;
use std::marker::Model;
use valid_rules::Opener;
use wasm_types::ValType;
use wl_base::{OutOfMemory, Seq};
use wl_stack::Stack;

/// A block that is open. Its parameters stand in the list of types from one place to another, and behind them its results.
#[derive(Clone, Copy)]
pub struct Block {
    /// The instruction that opened it.
    pub opener: Opener,
    /// Where its parameters begin.
    pub from: usize,
    /// Where its results begin.
    pub mid: usize,
    /// Where they end.
    pub to: usize,
    /// Whether an instruction of the block never comes behind itself.
    pub unreachable: bool,
}

/// A block around the innermost one.
#[derive(Clone, Copy)]
pub struct Outer {
    /// The block.
    pub block: Block,
    /// How many operands lay there when it began.
    pub height: usize,
}

/// The blocks that are open, with their operands.
#[derive(Drop)]
pub struct Blocks {
    pub(crate) types: Seq<ValType>,
    pub(crate) inner: Option<Block>,
    pub(crate) around: Stack<Outer>,
    pub(crate) operands: Operands,
}

impl Model for Blocks {
    ghost use Rattle.std.specs.Prelude.{List, length};
    ghost use Rattle.valid_rules.specs.declared.types.Frame.{Frame};
    ghost use Rattle.valid_bodies.specs.Blocks.{frames, Open};

    ghost Value = { List Frame };

    ghost view = { λ s. frames s.types s.inner s.around s.operands };

    ghost invariant = { λ s. Open s.inner s.around (length s.types) (length s.operands.below) };
}

impl Blocks {
    /// No block. It takes no memory.
    pub fn new(alloc: Global) -> Self
        ensures { result ≡ [] }
    {
        Blocks {
            types: Seq::new(alloc),
            inner: None,
            around: Stack::new(alloc),
            operands: Operands::new(alloc),
        }
    }

    /// Whether a block is open.
    pub fn is_open(&self) -> bool
        ensures { result ≡ is_open self.now }
    {
        self.inner.is_some()
    }

    /// A body with these results begins, whatever was open. The room of what was there is kept.
    ///
    /// # Errors
    /// Want of memory.
    pub fn begin(&mut self, results: &[ValType]) -> Result<(), OutOfMemory>
        ensures { OnOk result (self.new ≡ whole results.now ∷ []) }
    {
        self.inner = None;
        let count = self.around.len();
        self.around.drop_top(count);
        self.operands.reset();
        self.types.truncate(0);
        self.types.extend_from_slice(results)?;
        self.inner = Some(Block {
            opener: Opener::Block,
            from: 0,
            mid: 0,
            to: self.types.len(),
            unreachable: false,
        });
        Ok(())
    }
}

/// The types from one place to another.
fn types_in(types: &Seq<ValType>, from: usize, to: usize) -> &[ValType]
    requires { (from ≤ to) × (to ≤ length types.now) }
    ensures { result.now ≡ take (to - from) (drop from types.now) }
{
    &types.as_slice()[from..][..to - from]
}

/// The parameters of a block.
pub fn params_in(types: &Seq<ValType>, block: Block) -> &[ValType]
    requires { Stands block (length types.now) }
    ensures { result.now ≡ (kind_in types.now block).params }
{
    types_in(types, block.from, block.mid)
}

/// The results of a block.
pub fn results_in(types: &Seq<ValType>, block: Block) -> &[ValType]
    requires { Stands block (length types.now) }
    ensures { result.now ≡ (kind_in types.now block).results }
{
    types_in(types, block.mid, block.to)
}

/// The types that a branch to this block takes.
pub fn label_in(types: &Seq<ValType>, block: Block) -> &[ValType]
    requires { Stands block (length types.now) }
    ensures { result.now ≡ label_in types.now block }
{
    if block.opener == Opener::Loop {
        params_in(types, block)
    } else {
        results_in(types, block)
    }
}

/// The block of a label, where it is there.
#[tactic(auto, using(crate::proofs::Keeping::block_found))]
pub fn block_at(inner: Block, around: &Stack<Outer>, label: u32) -> Option<Block>
    ensures { result ≡ slice_get (blocks_in inner around.now) label }
{
    if label == 0 {
        return Some(inner);
    }
    match around.at(label as usize - 1) {
        None => None,
        Some(outer) => Some(outer.block),
    }
}
