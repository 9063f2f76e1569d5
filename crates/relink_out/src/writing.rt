//! The bytes of the object, unless they are too many.
ghost use Rattle.std.specs.Prelude.{◌≡◌, IfOk};
ghost use Rattle.partial_items.specs.partial_rules.Relocatable.{relocatable_bytes};
ghost use Rattle.partial_items.specs.partial_bytes.Told.{tree_told, TreeFits};
ghost use Rattle.relink_out.specs.Judged.{IsJudged};

use partial_items::{Tree, measure, written};
use std::alloc::Global;
use std::thread::Threads;
use wl_base::{OutOfMemory, Seq};
use wl_fan::Workers;

/// How many bytes an object may have, so that it can be an input again.
const MOST: u64 = 1 << 30;

/// An object, judged by its length.
#[derive(Drop)]
pub enum Judged {
    /// Its bytes.
    Bytes(Seq<u8>),
    /// How many it would have.
    TooLong(u64),
}

/// The bytes of the object, or how many there would be.
pub fn write<R: Threads + Sync>(
    rt: &R,
    alloc: Global,
    tree: &Tree<'_>,
    workers: Workers,
) -> Result<Judged, OutOfMemory>
    requires { TreeFits tree.now }
    ensures { IfOk result (IsJudged (relocatable_bytes (tree_told tree.now))) }
{
    let measured = measure(rt, alloc, tree, workers)?;
    if measured.len > MOST {
        return Ok(Judged::TooLong(measured.len));
    }
    let bytes = written(rt, alloc, tree, &measured, workers)?;
    Ok(Judged::Bytes(bytes))
}
