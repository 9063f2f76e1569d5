//! Graphs that are marked on real threads.
ghost use Rattle.std.specs.Prelude.{◌≡◌, length, IsTrue};
ghost use Rattle.live_mark.specs.Asks.{Below, AllBelow};
ghost use Rattle.marking_tests.specs.Graphs.{all_below, rows_below};

use live_mark::{Edges, live};
use mark_bits::MarkSet;
use std::alloc::Global;
use std::test::Fail;
use std::thread::Threads;
use test_kit::{Meeting, Tally};
use wl_base::{OutOfMemory, Seq};
use wl_fan::Workers;
use wl_lists::Lists;
use wl_outside::{Gate, Phase};

/// A list of chunks for each chunk.
#[derive(Drop)]
struct Graph {
    targets: Lists<u32>,
}

impl Edges for Graph {
    ghost use Rattle.std.specs.Prelude.{Some};

    type Item = u32;

    ghost targets = { λ s. s.targets };

    ghost target = { λ s item. Some item };

    fn count(&self) -> usize {
        self.targets.len()
    }

    fn row(&self, chunk: u32) -> &[u32] {
        self.targets.row(chunk as usize)
    }

    fn target(&self, item: &u32) -> Option<u32> {
        Some(*item)
    }
}

fn in_range(count: usize, chunks: &[u32]) -> bool
    ensures { result ≡ all_below count chunks.now }
{
    chunks.iter().all(|chunk| (*chunk as usize) < count)
}

fn rows_in_range(count: usize, rows: &Lists<u32>) -> bool
    ensures { result ≡ rows_below count rows.now }
{
    for at in 0..rows.len() {
        if !in_range(count, rows.row(at)) {
            return false;
        }
    }
    true
}

// The marked chunks, where the numbers may be asked for.
#[tactic(auto, using(crate::proofs::Graphs::below_from, crate::proofs::Graphs::all_below_from))]
fn marked<G: Gate, R: Threads + Sync>(
    rt: &R,
    alloc: Global,
    graph: &Graph,
    roots: &[u32],
    workers: u32,
    gate: &G,
) -> Option<MarkSet> {
    let workers = Workers::new(workers)?;
    let count = graph.targets.len();
    if count >= 1 << 32 || roots.len() >= 1 << 32 {
        return None;
    }
    if !in_range(count, roots) {
        return None;
    }
    if !rows_in_range(count, &graph.targets) {
        return None;
    }
    live(rt, alloc, graph, roots, workers, gate).ok()
}

// 0 refers to 1 and 2, these to 3, and 4 stands by itself.
fn diamond(alloc: Global) -> Result<Graph, OutOfMemory> {
    let mut targets = Lists::new(alloc);
    for row in [
        [1u32, 2].as_slice(),
        [3].as_slice(),
        [3].as_slice(),
        [].as_slice(),
        [].as_slice(),
    ] {
        targets.push(row)?;
    }
    Ok(Graph { targets })
}

// 0 refers to 9,000 chunks, each of these to one more, and the first of those to a further one. The last
// chunk stands by itself.
fn wide(alloc: Global) -> Result<Graph, OutOfMemory> {
    let mut targets = Lists::new(alloc);
    let mut all = Seq::new(alloc);
    for chunk in 1..=9000u32 {
        all.push(chunk)?;
    }
    targets.push(all.as_slice())?;
    for chunk in 9001..=18001u32 {
        targets.push([chunk].as_slice())?;
    }
    for _ in 0..9001 {
        targets.push([].as_slice())?;
    }
    Ok(Graph { targets })
}

#[test]
fn marks_what_the_roots_reach(rt: HostRuntime) -> Result<(), Fail> {
    let graph = diamond(rt.alloc())?;
    for workers in [1u32, 2, 64] {
        let gate = Tally::new(Phase::Mark);
        let set = marked(&rt, rt.alloc(), &graph, &[0], workers, &gate).ok_or("marks")?;
        assert_eq!(rt; set.chunks, 5);
        assert_eq!(rt; set.words.as_slice(), [15].as_slice());
        // the root, then 0, then 1 and 2, then 3 alone, which both refer to and one of them marked first
        assert_eq!(rt; gate.jobs(), Some(5));
    }
    Ok(())
}

#[test]
fn no_roots_reach_nothing(rt: HostRuntime) -> Result<(), Fail> {
    let graph = diamond(rt.alloc())?;
    for workers in [1u32, 2, 64] {
        let gate = Tally::new(Phase::Mark);
        let set = marked(&rt, rt.alloc(), &graph, &[], workers, &gate).ok_or("marks")?;
        assert_eq!(rt; set.words.as_slice(), [0].as_slice());
        // the first round comes to nothing, and there is no other
        assert_eq!(rt; gate.jobs(), Some(0));
    }
    Ok(())
}

#[test]
fn a_wide_frontier_is_divided(rt: HostRuntime) -> Result<(), Fail> {
    let graph = wide(rt.alloc())?;
    for (workers, greatest) in [(1u32, 0u64), (2, 1), (64, 2)] {
        let gate = Tally::new(Phase::Mark);
        let set = marked(&rt, rt.alloc(), &graph, &[0], workers, &gate).ok_or("marks")?;
        assert_eq!(rt; gate.greatest_worker(), greatest);
        assert_eq!(rt; set.chunks, 18003);
        assert!(rt; set.has(0) && set.has(9000) && set.has(18001) && !set.has(18002));
    }
    Ok(())
}

#[test]
fn two_workers_mark_at_once(rt: HostRuntime) -> Result<(), Fail> {
    let graph = diamond(rt.alloc())?;
    for workers in [2u32, 64] {
        let gate = Meeting::new(Phase::Mark);
        let set = marked(&rt, rt.alloc(), &graph, &[0, 4], workers, &gate).ok_or("marks")?;
        assert_eq!(rt; set.words.as_slice(), [31].as_slice());
        assert!(rt; gate.was_met());
    }
    Ok(())
}
