//! A list of lists in two pieces of memory.
ghost use Rattle.std.specs.Prelude.{◌≡◌, ◌++◌, ◌∷◌, ◌-◌, ◌≤◌, [], length, take, drop, slice_get, slice_index_or, option_copied, IfOk, OnOk, OnErr};

use std::alloc::Global;
use std::marker::Model;
use wl_base::{OutOfMemory, Seq};

/// A list of lists, which contracts see as that list. The items of all stand one behind the other,
/// so that a list takes four bytes and its items.
#[derive(Debug, Drop)]
pub struct Lists<T> {
    /// Where each list ends among the items.
    ends: Seq<u32>,
    /// The items of all lists.
    items: Seq<T>,
}

impl<T> Model for Lists<T> {
    ghost use Rattle.std.specs.Prelude.{List, length};
    ghost use Rattle.std.specs.Coded.{coded_list};
    ghost use Rattle.wl_lists.specs.Lists.{cut, Rise};

    ghost Value = { List (List T) };

    ghost coded = { coded_list (coded_list T.code) };

    ghost view = { λ l. cut 0 l.ends l.items };

    ghost invariant = { λ l. Rise 0 l.ends (length l.items) };
}

/// Where the list at a place begins: where the one before it ends.
fn start_of(ends: &[u32], at: usize) -> usize
    ensures { result ≡ slice_index_or (0 ∷ ends.now) at 0 }
{
    if at == 0 {
        return 0;
    }
    match ends.get(at - 1) {
        Some(end) => *end as usize,
        None => 0,
    }
}

/// The items from a place up to another.
fn part<T>(items: &[T], start: usize, end: usize) -> &[T]
    requires up { start ≤ end }
    requires inside { end ≤ length items.now }
    ensures { result.now ≡ take (end - start) (drop start items.now) }
{
    &items[start..][..end - start]
}

impl<T> Lists<T> {
    /// No list. It takes no memory.
    pub fn new(alloc: Global) -> Self
        ensures { result ≡ [] }
    {
        Lists {
            ends: Seq::new(alloc),
            items: Seq::new(alloc),
        }
    }

    /// No list, with room for so many lists, and for so many items of all of them.
    pub fn with_room(alloc: Global, lists: usize, items: usize) -> Result<Self, OutOfMemory>
        ensures { IfOk result (λ made. made ≡ []) }
    {
        Ok(Lists {
            ends: with_room(alloc, lists)?,
            items: with_room(alloc, items)?,
        })
    }

    /// How many lists there are.
    pub fn len(&self) -> usize
        ensures { result ≡ length self.now }
    {
        self.ends.len()
    }

    /// The list at a place, counted from 0; `None` exactly where there is none.
    pub fn get(&self, at: usize) -> Option<&[T]>
        ensures { option_copied result ≡ slice_get self.now at }
    {
        match self.ends.get(at) {
            None => None,
            Some(end) => {
                let start = start_of(self.ends.as_slice(), at);
                Some(part(self.items.as_slice(), start, *end as usize))
            }
        }
    }
}

impl<T> Lists<T> {
    /// The list at a place; no items where there is none.
    #[tactic(auto, using(crate::proofs::Rows::row_read, crate::proofs::Rows::row_missing))]
    pub fn row(&self, at: usize) -> &[T]
        ensures { result.now ≡ slice_index_or self.now at [] }
    {
        match self.get(at) {
            Some(row) => row,
            None => &[],
        }
    }
}

impl<T: Drop> Lists<T> {
    /// Drops the lists from the place `len` on; where there are no more than `len`, nothing changes.
    pub fn truncate(&mut self, len: usize)
        ensures { self.new ≡ take len self.old }
    {
        if len < self.ends.len() {
            let end = start_of(self.ends.as_slice(), len);
            self.ends.truncate(len);
            self.items.truncate(end);
        }
    }

    /// The same lists in no more memory than they need.
    pub fn shrunk(self) -> Self
        ensures { result ≡ self }
    {
        Lists {
            ends: shrunk(self.ends),
            items: shrunk(self.items),
        }
    }
}

impl<T: Copy> Lists<T> {
    /// Puts a list at the end. Where memory is refused there are the same lists as before. More than
    /// 2^32 - 1 items are answered as want of memory.
    pub fn push(&mut self, list: &[T]) -> Result<(), OutOfMemory>
        ensures ok { OnOk result (self.new ≡ self.old ++ list.now ∷ []) }
        ensures err { OnErr result (self.new ≡ self.old) }
    {
        let Some(len) = self.items.len().checked_add(list.len()) else {
            return Err(OutOfMemory);
        };
        let Ok(end) = u32::try_from(len) else {
            return Err(OutOfMemory);
        };
        self.ends.push(end)?;
        match self.items.extend_from_slice(list) {
            Ok(()) => Ok(()),
            Err(e) => {
                self.ends.pop();
                Err(e)
            }
        }
    }
}

/// No item, with room for so many.
pub fn with_room<T>(alloc: Global, items: usize) -> Result<Seq<T>, OutOfMemory>
    ensures { IfOk result (λ made. made ≡ []) }
{
    Seq::with_room(alloc, items)
}

/// The same items in no more memory than they need.
pub fn shrunk<T: Drop>(items: Seq<T>) -> Seq<T>
    ensures { result ≡ items }
{
    let mut items = items.into_vec();
    items.shrink_to_fit();
    Seq::from_vec(items)
}
