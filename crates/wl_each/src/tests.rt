//! Each item is computed at its place, by however many workers.
use crate::{Each, each_item};
use std::alloc::Global;
use std::test::Fail;
use std::thread::Threads;
use wl_fan::Workers;

// The number of a place.
struct Places;

impl Each<u32> for Places {
    ghost use Rattle.std.specs.Prelude.{◌-◌, ◌^◌, min};

    ghost value = { λ s at. min at (2 ^ 32 - 1) };

    fn item(&self, at: usize) -> u32 {
        at.min(u32::MAX as usize) as u32
    }
}

// Whether so many items are their places, where so many workers compute them.
fn are_places<R: Threads + Sync>(
    rt: &R,
    alloc: Global,
    count: usize,
    workers: u32,
) -> Option<bool> {
    let workers = Workers::new(workers)?;
    let items = each_item(rt, alloc, &Places, count, u32::MAX, workers).ok()?;
    let mut right = items.len() == count;
    for (at, item) in items.iter().enumerate() {
        right &= *item as usize == at;
    }
    Some(right)
}

#[test]
fn each_item_stands_at_its_place(rt: HostRuntime) -> Result<(), Fail> {
    for (count, workers) in [
        (0usize, 4u32),
        (1, 64),
        (16_383, 2),
        (32_768, 1),
        (32_768, 2),
        (100_001, 3),
        (1_100_000, 64),
    ] {
        assert!(rt; are_places(&rt, rt.alloc(), count, workers) == Some(true));
    }
    Ok(())
}
