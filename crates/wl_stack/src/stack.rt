//! Stacks. The items lie in a `Vec`, the newest at its end, so putting one on and taking one off
//! move no other; contracts see them the other way round, as definitions over lists have them.
ghost use Rattle.std.specs.Prelude.{◌≡◌, ◌+◌, ◌-◌, ◌<◌, ◌≤◌, List, [], ◌∷◌, ◌++◌, length, take, drop, reverse, IfOk, OnOk, OnErr, slice_get, IfSome, MatchOption, None, Some};

use std::alloc::Global;
use std::marker::Model;
use wl_base::{OutOfMemory, Seq};

/// A list that grows at its front: contracts see the newest item first.
#[derive(Debug, Drop)]
pub struct Stack<T> {
    items: Vec<T>,
}

impl<T> Model for Stack<T> {
    ghost Value = { List T };

    ghost view = { λ s. reverse s.items.items };
}

impl<T> Stack<T> {
    /// The empty stack. It takes no memory.
    pub fn new(alloc: Global) -> Self
        ensures { result ≡ [] }
    {
        Stack {
            items: Vec::new(alloc),
        }
    }

    /// How many items there are.
    pub fn len(&self) -> usize
        ensures { result ≡ length self.now }
    {
        self.items.len()
    }

    /// The item below `count` newer ones; `None` exactly where there are no more than `count`.
    pub fn get(&self, count: usize) -> Option<&T>
        ensures { MatchOption result (slice_get self.now count ≡ None) (λ x. slice_get self.now count ≡ Some x.now) }
    {
        let len = self.items.len();
        if count < len {
            Some(&self.items[len - 1 - count])
        } else {
            None
        }
    }

    /// Takes off the newest item; `None` exactly where there is none.
    pub fn pop(&mut self) -> Option<T>
        ensures { MatchOption result ((self.old ≡ []) × (self.new ≡ [])) (λ x. self.old ≡ x ∷ self.new) }
    {
        self.items.pop()
    }

    /// Takes off the `count` newest items, as a stack of their own.
    ///
    /// # Errors
    /// Want of memory; then the stack is as before.
    pub fn take_top(&mut self, count: usize) -> Result<Stack<T>, OutOfMemory>
        requires { count ≤ length self.old }
        ensures taken { IfOk result (λ top. top ≡ take count self.old) }
        ensures left { OnOk result (self.new ≡ drop count self.old) }
        ensures err { OnErr result (self.new ≡ self.old) }
    {
        let at = self.items.len() - count;
        let items = self.items.split_off(at)?;
        Ok(Stack { items })
    }

    /// The items, the oldest first. It takes no memory.
    #[tactic(auto, using(crate::proofs::Ends::stacks))]
    pub fn into_seq(self) -> Seq<T>
        ensures { result ≡ reverse self }
    {
        let Stack { items } = self;
        Seq::from_vec(items)
    }
}

impl<T: Copy> Stack<T> {
    /// The item below `count` newer ones; `None` exactly where there are no more than `count`.
    pub fn at(&self, count: usize) -> Option<T>
        ensures value { result ≡ slice_get self.now count }
        ensures within { IfSome result (λ _. count < length self.now) }
    {
        let len = self.items.len();
        if count < len {
            Some(self.items[len - 1 - count])
        } else {
            None
        }
    }

    /// The newest item; `None` exactly where there is none.
    pub fn top(&self) -> Option<T>
        ensures { result ≡ slice_get self.now 0 }
    {
        self.items.last().copied()
    }
}

impl<T: Drop> Stack<T> {
    /// Puts an item on top.
    ///
    /// # Errors
    /// Want of memory; then the stack is as before, and the item is dropped.
    pub fn push(&mut self, item: T) -> Result<(), OutOfMemory>
        ensures ok { OnOk result (self.new ≡ item ∷ self.old) }
        ensures err { OnErr result (self.new ≡ self.old) }
    {
        self.items.push(item)?;
        Ok(())
    }

    /// Puts another stack on top.
    ///
    /// # Errors
    /// Want of memory; then the stack is as before, and the other one is dropped.
    #[tactic(auto, using(crate::proofs::Ends::stacks))]
    pub fn put_on(&mut self, top: Stack<T>) -> Result<(), OutOfMemory>
        ensures ok { OnOk result (self.new ≡ top ++ self.old) }
        ensures err { OnErr result (self.new ≡ self.old) }
    {
        let Stack { mut items } = top;
        self.items.append(&mut items)?;
        Ok(())
    }

    /// Drops the `count` newest items.
    pub fn drop_top(&mut self, count: usize)
        requires { count ≤ length self.old }
        ensures { self.new ≡ drop count self.old }
    {
        let at = self.items.len() - count;
        self.items.truncate(at);
    }

    /// Keeps the `arity` newest items and the `height` oldest ones, and drops what lies between: what a branch
    /// does to the operands (the standard's 4.4.8).
    ///
    /// # Errors
    /// Want of memory; then the `height` oldest items are still there.
    pub fn sink(&mut self, arity: usize, height: usize) -> Result<(), OutOfMemory>
    where
        T: Copy,
        requires { arity + height ≤ length self.old }
        ensures ok { OnOk result (self.new ≡ take arity self.old ++ drop (length self.old - height) self.old) }
        ensures err { height ≤ length self.new }
    {
        let gone = self.len() - height;
        match arity {
            0 => {
                self.drop_top(gone);
                Ok(())
            }
            1 => match self.at(0) {
                Some(v) => {
                    self.drop_top(gone);
                    self.push(v)
                }
                None => Ok(()),
            },
            _ => {
                let kept = self.take_top(arity)?;
                self.drop_top(gone - arity);
                self.put_on(kept)
            }
        }
    }
}
