//! The values of a function that runs, by the blocks that are open.
ghost use Rattle.std.specs.Prelude.{◌≡◌, ℕ, ◌+◌, ◌-◌, ◌<◌, ◌≤◌, List, [], ◌∷◌, ◌++◌, length, take};
ghost use Rattle.std.specs.Prelude.{drop, reverse, IfOk, OnOk, OnErr, MatchOption};
ghost use Rattle.run_numbers.specs.Layers.{Closes, Jumps};

use run_rules::Value;
use std::alloc::Global;
use std::marker::Model;
use wl_base::OutOfMemory;
use wl_stack::Stack;

/// A block that is open: how many values are outside it.
#[derive(Clone, Copy)]
pub struct Opened {
    /// The place where a branch to its label goes on.
    pub target: usize,
    /// How many values that takes along.
    pub arity: usize,
    /// How many values are outside.
    pub height: usize,
}

/// Values on one stack, and the blocks that they are in.
#[derive(Drop)]
pub struct Layered {
    values: Stack<Value>,
    blocks: Stack<Opened>,
}

impl Model for Layered {
    ghost use Rattle.std.specs.Prelude.{length};
    ghost use Rattle.run_numbers.specs.Layers.{Layers, layers, Heights};

    ghost Value = { Layers };

    ghost view = { λ s. layers s.blocks s.values };

    ghost invariant = { λ s. Heights s.blocks (length s.values) };
}

/// Where a branch leads.
#[derive(Clone, Copy)]
pub enum Jump {
    /// To this place.
    To(usize),
    /// There are not enough values.
    Short,
    /// There is no such label.
    Past,
}

impl Layered {
    /// No value, no block.
    pub fn new(alloc: Global) -> Self
        ensures { result ≡ record { values = []; labels = [] } }
    {
        Layered {
            values: Stack::new(alloc),
            blocks: Stack::new(alloc),
        }
    }

    /// How many values the innermost block has.
    pub fn count(&self) -> usize
        ensures { result ≡ length self.now.values }
    {
        match self.blocks.top() {
            Some(b) => self.values.len() - b.height,
            None => self.values.len(),
        }
    }

    /// How many blocks are open.
    pub fn depth(&self) -> usize
        ensures { result ≡ length self.now.labels }
    {
        self.blocks.len()
    }

    /// Puts a value on top.
    pub fn push(&mut self, v: Value) -> Result<(), OutOfMemory>
        ensures { OnOk result (self.new ≡ record self.old { values = v ∷ self.old.values }) }
    {
        self.values.push(v)?;
        Ok(())
    }

    /// Takes off the newest value of the innermost block.
    pub fn pop(&mut self) -> Option<Value>
        ensures { MatchOption result
            ((self.old.values ≡ []) × (self.new ≡ self.old)) (λ v. self.old ≡ record self.new {
              values = v ∷ self.new.values;
            }) }
    {
        if self.count() == 0 {
            return None;
        }
        let v = self.values.pop()?;
        Some(v)
    }

    /// Opens a block that has so many of the values.
    pub fn open(&mut self, target: usize, arity: usize, params: usize) -> Result<(), OutOfMemory>
        requires { params ≤ length self.old.values }
        ensures { OnOk result
            (self.new ≡ record {
              values = take params self.old.values;
              labels = record {
                target =
                    target;
                arity = arity;
                outside = drop params self.old.values;
              } ∷ self.old.labels;
            }) }
    {
        let height = self.values.len() - params;
        self.blocks.push(Opened {
            target,
            arity,
            height,
        })?;
        Ok(())
    }

    /// Closes the innermost block, and says where its label leads.
    pub fn close(&mut self) -> Option<usize>
        ensures { MatchOption result
            ((self.old.labels ≡ []) × (self.new ≡ self.old)) (λ t. Closes self.old t self.new) }
    {
        let block = self.blocks.pop()?;
        Some(block.target)
    }

    /// Out to a label, with as many values as it takes.
    pub fn jump(&mut self, k: usize) -> Result<Jump, OutOfMemory>
        ensures { IfOk result (λ j. Jumps self.old k j self.new) }
    {
        let count = self.count();
        let depth = self.blocks.len();
        match self.blocks.at(k) {
            None => Ok(Jump::Past),
            Some(block) => {
                if count < block.arity {
                    return Ok(Jump::Short);
                }
                self.blocks.drop_top(k + 1);
                self.values.sink(block.arity, block.height)?;
                Ok(Jump::To(block.target))
            }
        }
    }

    /// The newest so many values of the innermost block, which are taken off.
    pub fn take_top(&mut self, count: usize) -> Result<Stack<Value>, OutOfMemory>
        requires { count ≤ length self.old.values }
        ensures taken { IfOk result (λ top. top ≡ take count self.old.values) }
        ensures left { OnOk result
            (self.new ≡ record self.old { values = drop count self.old.values }) }
    {
        let top = self.values.take_top(count)?;
        Ok(top)
    }

    /// All values of the innermost block, which are taken off.
    #[tactic(auto, using(crate::proofs::Blocks::take_whole))]
    pub fn take_values(&mut self) -> Result<Stack<Value>, OutOfMemory>
        ensures taken { IfOk result (λ all. all ≡ self.old.values) }
        ensures left { OnOk result (self.new.labels ≡ self.old.labels) }
    {
        let count = self.count();
        let all = self.take_top(count)?;
        Ok(all)
    }

    /// Puts values on top, one after another.
    pub fn push_all(&mut self, values: &[Value]) -> Result<(), OutOfMemory>
        ensures { OnOk result
            (self.new ≡ record self.old { values = reverse values.now ++ self.old.values }) }
    {
        for v in values {
            self.push(*v)?;
        }
        Ok(())
    }

    /// Puts a stack on top.
    pub fn put_on(&mut self, top: Stack<Value>) -> Result<(), OutOfMemory>
        ensures { OnOk result (self.new ≡ record self.old { values = top ++ self.old.values }) }
    {
        self.values.put_on(top)?;
        Ok(())
    }
}
