//! A list that keeps its allocator, and that contracts see as the list of its items.
ghost use Rattle.std.specs.Prelude.{◌≡◌, ◌++◌, ◌∷◌, ◌-◌, ◌<◌, ◌↔◌, ◌==◌, [], length, take, slice_get, slice_set, slice_index_or, Some, IsSome, OnOk, OnErr, IfOk, option_copied};

use crate::OutOfMemory;
use std::alloc::Global;
use std::marker::Model;

/// A list that grows at its end.
#[derive(Debug, Drop)]
pub struct Seq<T> {
    items: Vec<T>,
}

impl<T> Model for Seq<T> {
    ghost use Rattle.std.specs.Prelude.{List};
    ghost use Rattle.std.specs.Coded.{coded_list};

    ghost Value = { List T };

    ghost coded = { coded_list T.code };

    ghost view = { λ s. s.items.items };
}

impl<T> Seq<T> {
    /// The empty list. It takes no memory.
    pub fn new(alloc: Global) -> Self
        ensures { result ≡ [] }
    {
        Seq {
            items: Vec::new(alloc),
        }
    }

    /// The empty list, with room for so many items.
    pub fn with_room(alloc: Global, items: usize) -> Result<Self, OutOfMemory>
        ensures { IfOk result (λ list. list ≡ []) }
    {
        Ok(Seq {
            items: Vec::with_capacity(alloc, items)?,
        })
    }

    /// The list of these items. It takes no memory.
    pub fn from_vec(items: Vec<T>) -> Self
        ensures { result ≡ items.items }
    {
        Seq { items }
    }

    /// The items as a `Vec`. It takes no memory.
    pub fn into_vec(self) -> Vec<T>
        ensures { result.items ≡ self }
    {
        let Seq { items } = self;
        items
    }

    /// How many items there are.
    pub fn len(&self) -> usize
        ensures { result ≡ length self.now }
    {
        self.items.len()
    }

    /// Whether there is no item.
    pub fn is_empty(&self) -> bool
        ensures { result ≡ (length self.now == 0) }
    {
        self.items.is_empty()
    }

    /// The items.
    pub fn as_slice(&self) -> &[T]
        ensures { result.now ≡ self.now }
    {
        self.items.as_slice()
    }

    /// The item at a place, counted from 0; `None` exactly where there is none.
    pub fn get(&self, at: usize) -> Option<&T>
        ensures { option_copied result ≡ slice_get self.now at }
    {
        self.items.get(at)
    }

    /// Takes the last item away; `None` exactly where the list is empty.
    pub fn pop(&mut self) -> Option<T>
        ensures rest { self.new ≡ take (length self.old - 1) self.old }
        ensures value { (default : T) → 0 < length self.old → result ≡ Some (slice_index_or self.old (length self.old - 1) default) }
        ensures some { IsSome result ↔ (0 < length self.old) }
    {
        self.items.pop()
    }
}

impl<T: Drop> Seq<T> {
    /// Drops the items from the place `len` on; where there are no more than `len`, nothing changes.
    pub fn truncate(&mut self, len: usize)
        ensures { self.new ≡ take len self.old }
    {
        self.items.truncate(len);
    }

    /// Puts an item at the end. Where memory is refused the list is as before, and the item is dropped.
    pub fn push(&mut self, item: T) -> Result<(), OutOfMemory>
        ensures ok { OnOk result (self.new ≡ self.old ++ item ∷ []) }
        ensures err { OnErr result (self.new ≡ self.old) }
    {
        self.items.push(item)?;
        Ok(())
    }
}

impl<T: Copy> Seq<T> {
    /// Puts an item in place of the last one; an empty list stays as it is.
    pub fn set_last(&mut self, item: T)
        ensures { self.new ≡ slice_set self.old (length self.old - 1) item }
    {
        let len = self.items.len();
        if len > 0 {
            self.items[len - 1] = item;
        }
    }

    /// The list of these items.
    pub fn from_slice(alloc: Global, items: &[T]) -> Result<Self, OutOfMemory>
        ensures { IfOk result (λ list. list ≡ items.now) }
    {
        Ok(Seq {
            items: Vec::from_slice(alloc, items)?,
        })
    }

    /// Puts items at the end. Where memory is refused the list is as before.
    pub fn extend_from_slice(&mut self, items: &[T]) -> Result<(), OutOfMemory>
        ensures ok { OnOk result (self.new ≡ self.old ++ items.now) }
        ensures err { OnErr result (self.new ≡ self.old) }
    {
        self.items.extend_from_slice(items)?;
        Ok(())
    }
}
