//! The files of a link, completed.
ghost use Rattle.std.specs.Prelude.{◌≡◌, IfOk, map};
ghost use Rattle.library_indexer.specs.Indexed.{with_index as with_index_of};

use crate::indexing::with_index;
use std::alloc::Global;
use wl_base::{OutOfMemory, Seq};

/// The files, each library without an index as `ranlib` completes it.
///
/// # Errors
/// Want of memory.
pub fn with_indexes(alloc: Global, files: Seq<Seq<u8>>) -> Result<Seq<Seq<u8>>, OutOfMemory>
    ensures { IfOk result (λ all. all ≡ map with_index_of files) }
{
    let mut all = Seq::with_room(alloc, files.len())?;
    let mut left = files.into_vec().into_iter();
    while let Some(bytes) = left.next() {
        all.push(with_index(alloc, bytes)?)?;
    }
    Ok(all)
}
