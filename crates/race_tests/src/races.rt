//! Both races, with 2 and 64 workers and with few offers.
use crate::grid_jobs::GridJobs;
use comdat_pick::{ComdatWinners, pick};
use std::alloc::Global;
use std::test::Fail;
use std::thread::Threads;
use symbol_race::{Winners, race};
use test_kit::{Asked, Counted, Meeting};
use wl_base::OutOfMemory;
use wl_fan::Workers;
use wl_outside::{Gate, OpenGate, Phase};

fn race_over<G: Gate, R: Threads + Sync>(
    rt: &R,
    alloc: Global,
    jobs: &Counted<GridJobs>,
    workers: Workers,
    gate: &G,
) -> Result<Winners, OutOfMemory> {
    race(rt, alloc, jobs, 1, workers, gate)
}

fn pick_over<G: Gate, R: Threads + Sync>(
    rt: &R,
    alloc: Global,
    jobs: &Counted<GridJobs>,
    workers: Workers,
    gate: &G,
) -> Result<ComdatWinners, OutOfMemory> {
    pick(rt, alloc, jobs, 1, workers, gate)
}

/// That each of so many offers was asked for once, and jobs at once.
fn asked_once(once: u64) -> Asked {
    Asked {
        once,
        otherwise: 0,
        at_once: true,
    }
}

#[test]
fn names_are_raced_for_by_workers_at_once(rt: HostRuntime) -> Result<(), Fail> {
    for n in [2u32, 64] {
        let workers = Workers::new(n).ok_or("from 1 to 64")?;
        let jobs = Counted::new(rt.alloc(), GridJobs::new(64, 128)).ok_or("no memory")?;
        let gate = Meeting::new(Phase::Names);
        let winners = race_over(&rt, rt.alloc(), &jobs, workers, &gate)?;
        assert!(rt; winners.of(0) == Some(4) && winners.of(1).is_none());
        assert_eq!(rt; jobs.asked(), asked_once(8192));
        assert!(rt; gate.was_met());
        assert_eq!(rt; gate.passed(), 64);
    }
    Ok(())
}

#[test]
fn groups_are_picked_by_workers_at_once(rt: HostRuntime) -> Result<(), Fail> {
    for n in [2u32, 64] {
        let workers = Workers::new(n).ok_or("from 1 to 64")?;
        let jobs = Counted::new(rt.alloc(), GridJobs::new(64, 128)).ok_or("no memory")?;
        let gate = Meeting::new(Phase::Groups);
        let winners = pick_over(&rt, rt.alloc(), &jobs, workers, &gate)?;
        assert!(rt; winners.of(0) == Some(4) && winners.of(1).is_none());
        assert_eq!(rt; jobs.asked(), asked_once(8192));
        assert!(rt; gate.was_met());
        assert_eq!(rt; gate.passed(), 64);
    }
    Ok(())
}

#[test]
fn few_offers_are_raced_for_by_two_workers(rt: HostRuntime) -> Result<(), Fail> {
    let workers = Workers::new(64).ok_or("from 1 to 64")?;
    let jobs = Counted::new(rt.alloc(), GridJobs::new(2, 2)).ok_or("no memory")?;
    let winners = race_over(&rt, rt.alloc(), &jobs, workers, &OpenGate)?;
    assert!(rt; winners.of(0) == Some(4) && winners.of(1).is_none());
    assert_eq!(rt; jobs.asked(), asked_once(4));
    Ok(())
}
