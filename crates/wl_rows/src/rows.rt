//! A list of lists in several pieces that stand one behind another, so that none is copied when they are put together.
ghost use Rattle.std.specs.Prelude.{◌≡◌, ◌++◌, [], length, flat_map, slice_index_or, OnOk};

use std::alloc::Global;
use std::marker::Model;
use wl_base::{OutOfMemory, Seq};
use wl_lists::Lists;

/// A list of lists, which contracts see as that list. One that has a single piece is read as that piece.
#[derive(Debug, Drop)]
pub struct Rows<T> {
    count: usize,
    first: Lists<T>,
    behind: Seq<Lists<T>>,
}

impl<T> Model for Rows<T> {
    ghost use Rattle.std.specs.Prelude.{◌≡◌, List, length};
    ghost use Rattle.std.specs.Coded.{coded_list};
    ghost use Rattle.wl_rows.specs.Rows.{all_rows};

    ghost Value = { List (List T) };

    ghost coded = { coded_list (coded_list T.code) };

    ghost view = { λ r. all_rows r.first r.behind };

    ghost invariant = { λ r. r.count ≡ length (all_rows r.first r.behind) };
}

/// The list at a place in pieces; no items where there is none.
fn row_in<T>(pieces: &[Lists<T>], at: usize) -> &[T]
    ensures { result.now ≡ slice_index_or (flat_map (λ rows. rows) pieces.now) at [] }
{
    let mut left = at;
    for rows in pieces {
        if left < rows.len() {
            return rows.row(left);
        }
        left -= rows.len();
    }
    &[]
}

impl<T: Drop> Rows<T> {
    /// The lists of one piece. It takes no memory.
    pub fn of(alloc: Global, first: Lists<T>) -> Rows<T>
        ensures { result ≡ first }
    {
        Rows {
            count: first.len(),
            first,
            behind: Seq::new(alloc),
        }
    }

    /// Puts the lists of a piece at the end.
    pub fn push(&mut self, rows: Lists<T>) -> Result<(), OutOfMemory>
        ensures { OnOk result (self.new ≡ self.old ++ rows) }
    {
        let Some(count) = self.count.checked_add(rows.len()) else {
            return Err(OutOfMemory);
        };
        self.behind.push(rows)?;
        self.count = count;
        Ok(())
    }
}

impl<T> Rows<T> {
    /// How many lists there are.
    pub fn len(&self) -> usize
        ensures { result ≡ length self.now }
    {
        self.count
    }

    /// The list at a place; no items where there is none.
    pub fn row(&self, at: usize) -> &[T]
        ensures { result.now ≡ slice_index_or self.now at [] }
    {
        match self.first.get(at) {
            Some(row) => row,
            None => row_in(self.behind.as_slice(), at.saturating_sub(self.first.len())),
        }
    }
}
