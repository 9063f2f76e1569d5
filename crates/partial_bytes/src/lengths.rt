//! How many bytes the entries of each part's relocations have. Workers compute them, since there are many relocations, and the place of a
//! part is known by the parts alone.
ghost use Rattle.std.specs.Prelude.{◌≡◌, ◌*◌, ◌≤◌, ◌<◌, length, slice_index_or, IfOk};
ghost use Rattle.wl_each.specs.Items.{begin_at, items_from};
ghost use Rattle.partial_bytes.specs.Measured.{froms_at, len_there, lens_in};

use crate::entries::entries_size;
use crate::part::{PartKind, head_size};
use crate::sums::sum;
use crate::tree::Part;
use image_emit::put::u32_size;
use std::alloc::Global;
use std::thread::Threads;
use wl_base::{OutOfMemory, Seq};
use wl_fan::{Slices, Workers, each_slice};

/// So many parts are worth a thread: each has some dozens of relocations.
const GRAIN: usize = 1 << 9;

/// Where the bytes of each part begin, of parts that stand in their section from a place on.
fn froms_at(
    alloc: Global,
    kind: PartKind,
    at: u64,
    parts: &[Part<'_>],
) -> Result<Seq<u64>, OutOfMemory>
    ensures { IfOk result (λ froms. froms ≡ froms_at kind at parts.now) }
{
    let mut froms = Seq::with_room(alloc, parts.len())?;
    let mut at = at;
    for part in parts {
        let from = sum(at, head_size(kind, part))?;
        froms.push(from)?;
        at = sum(from, part.bytes.len() as u64)?;
    }
    Ok(froms)
}

/// The place of the part of a number, or 0.
fn from_at(froms: &[u64], number: usize) -> u64
    ensures { result ≡ slice_index_or froms.now number 0 }
{
    match froms.get(number) {
        Some(from) => *from,
        None => 0,
    }
}

/// Into how many runs so many parts are cut.
fn runs_of(count: usize, workers: Workers) -> u32
    ensures { (1 ≤ result) × (result ≤ 64) }
{
    let worth = (count / GRAIN).min(64) as u32;
    worth.min(workers.count()).max(1)
}

/// Parts whose entries are measured, in runs: each has as many parts, and the last one those that are left over too.
#[derive(Drop)]
struct Measuring<'a> {
    parts: &'a [Part<'a>],
    froms: &'a [u64],
    share: usize,
    runs: u32,
    count: usize,
    ghost fits: { runs * share ≤ count },
}

impl Measuring<'_> {
    /// Where a run begins; behind the last run is the end.
    fn begin(&self, run: u32) -> usize
        ensures { result ≡ begin_at self.now.share self.now.runs self.now.count run }
    {
        if run < self.runs {
            run as usize * self.share
        } else {
            self.count
        }
    }

    /// How many bytes the entries of the part of a number have.
    fn len(&self, number: usize) -> u64
        ensures { result ≡ len_there self.now.parts.now self.now.froms.now number }
    {
        match self.parts.get(number) {
            Some(part) => entries_size(from_at(self.froms, number), part),
            None => 0,
        }
    }
}

impl Slices<u64> for Measuring<'_> {
    ghost use Rattle.std.specs.Prelude.{◌≡◌, length};
    ghost use Rattle.wl_each.specs.Items.{begin_at, items_from};
    ghost use Rattle.wl_each.specs.Dealt.{begins_rise};
    ghost use Rattle.partial_bytes.specs.Measured.{len_there};

    ghost begins = { λ s run. begin_at s.share s.runs s.count run };

    ghost worked = { λ s run old new. new ≡ items_from (len_there s.parts.now s.froms.now) (begin_at s.share s.runs s.count run) (length old) };

    ghost rises = { λ s p q le below. begins_rise s.share s.runs s.count p q s.fits le };

    fn cut(&self, run: u32) -> usize {
        self.begin(run)
    }

    fn work(&self, run: u32, items: &mut [u64]) {
        let from = self.begin(run);
        for at in 0..items.len() {
            items[at] = self.len(from + at);
        }
    }
}

/// How many bytes the entries of each part have, by where their bytes begin.
fn lens_by<R: Threads + Sync>(
    rt: &R,
    alloc: Global,
    parts: &[Part<'_>],
    froms: &[u64],
    workers: Workers,
) -> Result<Vec<u64>, OutOfMemory>
    ensures { IfOk result (λ lens. lens.items ≡ items_from (len_there parts.now froms.now) 0 (length parts.now)) }
{
    let count = parts.len();
    let mut lens = vec![in alloc; 0; count]?;
    let runs = runs_of(count, workers);
    let measuring = Measuring {
        parts,
        froms,
        share: count / runs as usize,
        runs,
        count,
    };
    each_slice(rt, &measuring, lens.as_mut_slice(), 0, runs);
    Ok(lens)
}

/// How many bytes the entries of each part of a section have.
pub fn lens_of<R: Threads + Sync>(
    rt: &R,
    alloc: Global,
    kind: PartKind,
    parts: &[Part<'_>],
    workers: Workers,
) -> Result<Seq<u64>, OutOfMemory>
    ensures { IfOk result (λ lens. lens ≡ lens_in kind parts.now) }
{
    let froms = froms_at(alloc, kind, u32_size(parts.len() as u64), parts)?;
    let lens = lens_by(rt, alloc, parts, froms.as_slice(), workers)?;
    Ok(Seq::from_vec(lens))
}

/// How many bytes the entries of the part of a number have, or 0.
pub fn len_at(lens: &[u64], number: usize) -> u64
    ensures { result ≡ slice_index_or lens.now number 0 }
{
    match lens.get(number) {
        Some(len) => *len,
        None => 0,
    }
}
