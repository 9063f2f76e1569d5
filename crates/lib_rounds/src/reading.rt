//! Members are read by several threads.
ghost use Rattle.std.specs.Prelude.{◌≡◌};

use crate::early::Early;
use std::alloc::Global;
use std::thread::Threads;
use wl_fan::{Slices, Workers, each_slice};

/// So many bytes are worth a thread: starting one costs 16 to 40 microseconds.
const GRAIN: usize = 1 << 15;

/// Members in parts of one size, but for the last ones.
#[derive(Drop)]
struct Reading {
    alloc: Global,
    count: usize,
    size: usize,
}

impl<'a> Slices<Early<'a>> for Reading {
    ghost use Rattle.std.specs.Prelude.{◌≡◌, length};
    ghost use Rattle.lib_rounds.specs.Parts.{first_of, first_rises};

    ghost begins = { λ s part. first_of s.count s.size part };

    ghost worked = { λ s part old new. length new ≡ length old };

    ghost rises = { λ s p q le below. first_rises s.count s.size p q le };

    fn cut(&self, part: u32) -> usize
        ensures { result ≡ first_of self.now.count self.now.size part }
    {
        (part as usize).saturating_mul(self.size).min(self.count)
    }

    fn work(&self, _part: u32, items: &mut [Early<'a>])
        ensures { length items.new ≡ length items.old }
    {
        for at in 0..items.len() {
            items[at].read(self.alloc);
        }
    }
}

/// How many bytes the members have.
fn total_len(members: &[Early<'_>]) -> usize {
    let mut total: usize = 0;
    for at in 0..members.len() {
        total = total.saturating_add(members[at].bytes().len());
    }
    total
}

/// Reads the members, each worker as many.
pub fn read_all<R: Threads + Sync>(
    rt: &R,
    alloc: Global,
    members: &mut [Early<'_>],
    workers: Workers,
) {
    let parts = (total_len(members) / GRAIN + 1).min(workers.count() as usize) as u32;
    let reading = Reading {
        alloc,
        count: members.len(),
        size: members.len() / parts as usize + 1,
    };
    if reading.cut(parts) == members.len() {
        each_slice(rt, &reading, members, 0, parts);
    }
}
