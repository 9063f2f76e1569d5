//! Bodies that several workers read and judge: each has a run of them that follow one another, with about as many
//! bytes as the others, and tells the first of them that has no typing. The first that is told in order is the first
//! of all, however many workers there are. A worker has one body at a time, so no list of instructions outlives it.
ghost use Rattle.std.specs.Prelude.{◌≡◌, None, IfOk, length, map};
ghost use Rattle.wl_rows.specs.Ranges.{AreRanges};
ghost use Rattle.output_check.specs.Told.{AreTold, Finds, merged};

use crate::bodies::{Told, earlier, first_untyped_in};
use std::alloc::Global;
use std::thread::Threads;
use valid_bodies::Context;
use wasm_module::ModuleFault;
use wl_base::OutOfMemory;
use wl_fan::{Slices, Workers, each_slice};
use wl_rows::Ranges;

/// So many bytes are worth a thread: starting one costs 15 to 40 microseconds, and a byte some 10 nanoseconds.
const GRAIN: usize = 1 << 14;

/// How many bytes there are, as far as a number holds it.
fn count_bytes(parts: &[&[u8]]) -> usize {
    let mut count = 0usize;
    for part in parts {
        count = count.saturating_add(part.len());
    }
    count
}

/// The bodies of each worker, by their places. One worker has all of them where they are short.
fn ranges_for(alloc: Global, parts: &[&[u8]], workers: Workers) -> Result<Ranges, OutOfMemory>
    ensures ranges { IfOk result (λ r. AreRanges 63 r.cuts r.count) }
    ensures count { IfOk result (λ r. r.count ≡ length parts.now) }
{
    let workers = workers.count() as usize;
    let share = (count_bytes(parts) / workers).max(GRAIN);
    let mut ranges = Ranges::new(alloc);
    for part in parts {
        ranges.add(part.len(), share, workers - 1)?;
    }
    Ok(ranges)
}

/// Bodies that are judged by ranges.
#[derive(Drop)]
struct Sharing<'a> {
    alloc: Global,
    context: &'a Context,
    functions: &'a [u32],
    parts: &'a [&'a [u8]],
    ranges: &'a Ranges,
}

impl Slices<Told> for Sharing<'_> {
    ghost use Rattle.std.specs.Prelude.{◌+◌, map};
    ghost use Rattle.output_check.specs.Told.{IsTold};
    ghost use Rattle.wl_rows.specs.Ranges.{first_at};

    ghost begins = { λ s worker. worker };

    ghost worked = { λ s worker old new. IsTold s.context.now s.functions.now (map (λ p. p.now) s.parts.now)
        (first_at s.ranges.now.cuts s.ranges.now.count worker) (first_at s.ranges.now.cuts s.ranges.now.count (worker + 1)) new };

    ghost rises = { λ s p q le below. le };

    fn cut(&self, worker: u32) -> usize {
        worker as usize
    }

    #[tactic(auto, using(crate::proofs::Runs::told_here))]
    fn work(&self, worker: u32, slots: &mut [Told]) {
        let from = self.ranges.first(worker) as usize;
        let to = self.ranges.first(worker + 1) as usize;
        slots[0] = first_untyped_in(
            self.alloc,
            self.context,
            self.functions,
            self.parts,
            from,
            to,
        );
    }
}

/// What each worker tells of its bodies.
fn each_told<R: Threads + Sync>(
    rt: &R,
    alloc: Global,
    context: &Context,
    functions: &[u32],
    parts: &[&[u8]],
    ranges: &Ranges,
) -> Result<Vec<Told>, OutOfMemory>
    requires { AreRanges 63 ranges.now.cuts ranges.now.count }
    ensures { IfOk result (λ slots. AreTold context.now functions.now (map (λ p. p.now) parts.now) ranges.now.cuts ranges.now.count slots.items) }
{
    let workers = ranges.workers();
    let mut slots = vec![in alloc; Err(ModuleFault::OutOfMemory); workers as usize]?;
    let sharing = Sharing {
        alloc,
        context,
        functions,
        parts,
        ranges,
    };
    each_slice(rt, &sharing, slots.as_mut_slice(), 0, workers);
    Ok(slots)
}

/// The first body that is told, in the order of the bodies. An error of any worker is an error of all.
fn merged(slots: &[Told]) -> Told
    ensures { result ≡ merged None slots.now }
{
    let mut first = None;
    for slot in slots {
        match slot {
            Ok(found) => first = earlier(first, *found),
            Err(e) => return Err(*e),
        }
    }
    Ok(first)
}

/// The place of the first body that has no typing in its context, found by several workers; `functions` has, for each
/// body, the index of its type among the context's (Core 3.4.1). `None` exactly where all have a typing. With one
/// worker no thread is started.
///
/// # Errors
/// `NotModule` exactly where the bytes of one of them are no body. Want of memory.
pub fn first_untyped_by<R: Threads + Sync>(
    rt: &R,
    alloc: Global,
    context: &Context,
    functions: &[u32],
    parts: &[&[u8]],
    workers: Workers,
) -> Told
    ensures { Finds context.now functions.now (map (λ p. p.now) parts.now) result }
{
    let Ok(ranges) = ranges_for(alloc, parts, workers) else {
        return Err(ModuleFault::OutOfMemory);
    };
    let Ok(slots) = each_told(rt, alloc, context, functions, parts, &ranges) else {
        return Err(ModuleFault::OutOfMemory);
    };
    merged(slots.as_slice())
}
