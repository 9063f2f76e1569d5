//! The operands of all open blocks on one stack. The height at which the innermost block began parts its own from those
//! below, which nothing but the end of the block gives back.

ghost use Rattle.std.specs.Prelude.{◌≡◌, ◌<◌, ◌≤◌, List, [], ◌∷◌, ◌++◌, length, slice_get, IfSome, MatchOption, OnOk, OnErr};
ghost use Rattle.valid_bodies.specs.Layer.{above, under};

use std::alloc::Global;
use std::marker::Model;
use valid_rules::Operand;
use wl_base::OutOfMemory;
use wl_stack::Stack;

/// The operands of the innermost block, and those of the blocks around it.
#[derive(Drop)]
pub struct Operands {
    items: Stack<Operand>,
    height: usize,
}

impl Model for Operands {
    ghost use Rattle.std.specs.Prelude.{◌≤◌, length};
    ghost use Rattle.valid_bodies.specs.Layer.{Layer, layer};

    ghost Value = { Layer };

    ghost view = { λ s. layer s.height s.items };

    ghost invariant = { λ s. s.height ≤ length s.items };
}

impl Operands {
    /// No operand.
    pub fn new(alloc: Global) -> Self
        ensures { result ≡ record { own = []; below = [] } }
    {
        Operands {
            items: Stack::new(alloc),
            height: 0,
        }
    }

    /// How many operands the innermost block has.
    pub fn len(&self) -> usize
        ensures { result ≡ length self.now.own }
    {
        self.items.len() - self.height
    }

    /// The operand of the innermost block below `count` newer ones.
    pub fn at(&self, count: usize) -> Option<Operand>
        ensures value { result ≡ slice_get self.now.own count }
        ensures within { IfSome result (λ _. count < length self.now.own) }
    {
        if count < self.len() {
            self.items.at(count)
        } else {
            None
        }
    }

    /// Puts an operand on top.
    pub fn push(&mut self, operand: Operand) -> Result<(), OutOfMemory>
        ensures ok { OnOk result (self.new ≡ record { own = operand ∷ self.old.own; below = self.old.below }) }
        ensures err { OnErr result (self.new ≡ self.old) }
    {
        self.items.push(operand)
    }

    /// Takes off the newest operand of the innermost block.
    pub fn pop(&mut self) -> Option<Operand>
        ensures { MatchOption result
            ((self.old.own ≡ []) × (self.new ≡ self.old)) (λ v. self.old ≡ record {
              own = v ∷ self.new.own;
              below = self.new.below;
            }) }
    {
        if self.len() == 0 {
            return None;
        }
        let operand = self.items.pop()?;
        Some(operand)
    }

    /// Drops the operands of the innermost block.
    pub fn clear(&mut self)
        ensures { self.new ≡ record { own = []; below = self.old.below } }
    {
        let count = self.len();
        self.items.drop_top(count);
    }

    /// A block opens: its operands are none, and all others lie below. Answers where those of the block around it began.
    pub fn enter(&mut self) -> usize
        ensures layer { self.new ≡ record { own = []; below = self.old.own ++ self.old.below } }
        ensures height { result ≡ length self.old.below }
    {
        let height = self.height;
        self.height = self.items.len();
        height
    }

    /// All operands are gone, and their room is kept.
    pub fn reset(&mut self)
        ensures { self.new ≡ record { own = []; below = [] } }
    {
        let count = self.items.len();
        self.items.drop_top(count);
        self.height = 0;
    }

    /// The innermost block closes, and its operands are gone. Those of the block around it began at this height.
    pub fn leave(&mut self, height: usize)
        requires { height ≤ length self.old.below }
        ensures { self.new ≡ record { own = above height self.old.below; below = under height self.old.below } }
    {
        let count = self.len();
        self.items.drop_top(count);
        self.height = height;
    }
}
