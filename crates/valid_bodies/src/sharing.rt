//! Bodies that several workers judge: each has a run of them that follow one another, with about as many instructions
//! as the others, and tells the first of them that has no typing. The first that is told in order is the first of all,
//! however many workers there are.
ghost use Rattle.std.specs.Prelude.{◌≡◌, length, IfOk};
ghost use Rattle.wl_rows.specs.Ranges.{AreRanges};
ghost use Rattle.valid_bodies.specs.First.{IsFirst};
ghost use Rattle.valid_bodies.specs.Shares.{AreTold, first_told};

use crate::bodies::first_untyped_in;
use crate::types::Context;
use std::alloc::Global;
use std::thread::Threads;
use wasm_instr::Body;
use wl_base::OutOfMemory;
use wl_fan::{Slices, Workers, each_slice};
use wl_rows::Ranges;

/// So many instructions are worth a thread: starting one costs 15 to 40 microseconds, and an instruction some 10 nanoseconds.
const GRAIN: usize = 1 << 14;

/// How many instructions there are, as far as a number holds it.
fn count_instructions(bodies: &[Body]) -> usize {
    let mut count = 0usize;
    for body in bodies {
        count = count.saturating_add(body.code.len());
    }
    count
}

/// The bodies of each worker, by their places. One worker has all of them where they are short.
fn ranges_for(alloc: Global, bodies: &[Body], workers: Workers) -> Result<Ranges, OutOfMemory>
    ensures ranges { IfOk result (λ r. AreRanges 63 r.cuts r.count) }
    ensures count { IfOk result (λ r. r.count ≡ length bodies.now) }
{
    let workers = workers.count() as usize;
    let share = (count_instructions(bodies) / workers).max(GRAIN);
    let mut ranges = Ranges::new(alloc);
    for body in bodies {
        ranges.add(body.code.len(), share, workers - 1)?;
    }
    Ok(ranges)
}

/// What a worker tells of its bodies: the first that has no typing, or that memory was refused.
type Told = Result<Option<usize>, OutOfMemory>;

/// Bodies that are judged by ranges.
#[derive(Drop)]
struct Sharing<'a> {
    alloc: Global,
    context: &'a Context,
    functions: &'a [u32],
    bodies: &'a [Body],
    ranges: &'a Ranges,
}

impl Slices<Told> for Sharing<'_> {
    ghost use Rattle.std.specs.Prelude.{◌+◌};
    ghost use Rattle.valid_bodies.specs.Shares.{IsTold};
    ghost use Rattle.wl_rows.specs.Ranges.{first_at};

    ghost begins = { λ s worker. worker };

    ghost worked = { λ s worker old new. IsTold s.context.now s.functions.now s.bodies.now
        (first_at s.ranges.now.cuts s.ranges.now.count worker) (first_at s.ranges.now.cuts s.ranges.now.count (worker + 1)) new };

    ghost rises = { λ s p q le below. le };

    fn cut(&self, worker: u32) -> usize {
        worker as usize
    }

    fn work(&self, worker: u32, slots: &mut [Told]) {
        let from = self.ranges.first(worker) as usize;
        let to = self.ranges.first(worker + 1) as usize;
        slots[0] = first_untyped_in(
            self.alloc,
            self.context,
            self.functions,
            self.bodies,
            from,
            to,
        );
    }
}

/// What each worker tells of its bodies.
fn each_told<R: Threads + Sync>(
    rt: &R,
    alloc: Global,
    context: &Context,
    functions: &[u32],
    bodies: &[Body],
    ranges: &Ranges,
) -> Result<Vec<Told>, OutOfMemory>
    requires { AreRanges 63 ranges.now.cuts ranges.now.count }
    ensures { IfOk result (λ slots. AreTold context.now functions.now bodies.now ranges.now.cuts ranges.now.count slots.items) }
{
    let workers = ranges.workers();
    let mut slots = vec![in alloc; Err(OutOfMemory); workers as usize]?;
    let sharing = Sharing {
        alloc,
        context,
        functions,
        bodies,
        ranges,
    };
    each_slice(rt, &sharing, slots.as_mut_slice(), 0, workers);
    Ok(slots)
}

/// The first body that is told, in the order of the bodies.
fn first_told(slots: &[Told]) -> Told
    ensures { result ≡ first_told slots.now }
{
    for slot in slots {
        match slot {
            Ok(None) => {}
            told => return *told,
        }
    }
    Ok(None)
}

/// The place of the first body that has no typing, as `first_untyped` has it, found by several workers. With one worker
/// no thread is started.
///
/// # Errors
/// Want of memory.
pub fn first_untyped_by<R: Threads + Sync>(
    rt: &R,
    alloc: Global,
    context: &Context,
    functions: &[u32],
    bodies: &[Body],
    workers: Workers,
) -> Result<Option<usize>, OutOfMemory>
    ensures { IfOk result (λ found. IsFirst context.now functions.now bodies.now found) }
{
    let ranges = ranges_for(alloc, bodies, workers)?;
    let slots = each_told(rt, alloc, context, functions, bodies, &ranges)?;
    first_told(slots.as_slice())
}
