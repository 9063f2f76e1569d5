//! Jobs that are divided among workers by what they weigh, so that each worker has as much.
ghost use Rattle.std.specs.Prelude.{◌≡◌, ◌+◌, ◌-◌, ◌<◌, ◌^◌, length, slice_index_or, OnOk};
ghost use Rattle.wl_rows.specs.Ranges.{first_at, AreRanges};

use std::alloc::Global;
use wl_base::{OutOfMemory, Seq};

/// The jobs of each worker, by their places. Those of the first worker begin at the front, those of each other one at a cut; those of the last
/// one end with the jobs.
#[derive(Debug, Drop)]
pub struct Ranges {
    /// The first job of each worker but the first.
    pub cuts: Seq<u32>,
    /// How many jobs there are.
    pub count: u32,
    /// What the jobs of the last worker weigh.
    pub weight: usize,
}

impl Ranges {
    /// No job, of one worker. It takes no memory.
    pub fn new(alloc: Global) -> Ranges
        ensures ranges { AreRanges 0 result.cuts result.count }
        ensures none { result.count ≡ 0 }
    {
        Ranges {
            cuts: Seq::new(alloc),
            count: 0,
            weight: 0,
        }
    }

    /// Cuts behind the jobs, where the last worker has its share and there are fewer cuts than `most`.
    fn cut(&mut self, share: usize, most: usize) -> Result<(), OutOfMemory>
        requires { AreRanges most self.old.cuts self.old.count }
        ensures ranges { OnOk result (AreRanges most self.new.cuts self.new.count) }
        ensures count { OnOk result (self.new.count ≡ self.old.count) }
    {
        if self.weight < share || self.cuts.len() >= most {
            return Ok(());
        }
        self.cuts.push(self.count)?;
        self.weight = 0;
        Ok(())
    }

    /// One job more, which weighs so much. It is the first of one more worker, where the last one has its share and there are fewer cuts than
    /// `most`.
    pub fn add(&mut self, weight: usize, share: usize, most: usize) -> Result<(), OutOfMemory>
        requires { AreRanges most self.old.cuts self.old.count }
        ensures ranges { OnOk result (AreRanges most self.new.cuts self.new.count) }
        ensures count { OnOk result (self.new.count ≡ self.old.count + 1) }
    {
        let Some(count) = self.count.checked_add(1) else {
            return Err(OutOfMemory);
        };
        self.cut(share, most)?;
        self.weight = self.weight.saturating_add(weight);
        self.count = count;
        Ok(())
    }

    /// How many workers there are.
    pub fn workers(&self) -> u32
        requires { length self.now.cuts < 2 ^ 32 - 1 }
        ensures { result ≡ length self.now.cuts + 1 }
    {
        self.cuts.len() as u32 + 1
    }

    /// The first job of a worker; behind the last worker it is the end.
    pub fn first(&self, worker: u32) -> u32
        ensures { result ≡ first_at self.now.cuts self.now.count worker }
    {
        if worker == 0 {
            0
        } else {
            cut_or(self.cuts.as_slice(), worker as usize - 1, self.count)
        }
    }
}

/// The cut at a place, or the end.
#[tactic(auto, using(crate::proofs::Cuts::read))]
fn cut_or(cuts: &[u32], at: usize, end: u32) -> u32
    ensures { result ≡ slice_index_or cuts.now at end }
{
    match cuts.get(at) {
        Some(cut) => *cut,
        None => end,
    }
}
