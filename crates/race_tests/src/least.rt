//! A race over three jobs in memory, step by step.
ghost use Rattle.std.specs.Prelude.{◌≡◌, ◌<◌, ◌≤◌, false, length, IfOk, IfSome};
ghost use Rattle.least_race.specs.Race.{times};
ghost use Rattle.least_race.specs.Seats.{IsSeatOf};
ghost use Rattle.least_race.specs.Three.{three};

use least_race::{Jobs, LeastRace, ListJobs, Offer, RaceSeat};
use std::alloc::Global;
use std::test::Fail;
use wl_base::{OutOfMemory, Seq};

fn three_jobs(alloc: Global) -> Result<ListJobs, OutOfMemory>
    ensures { IfOk result (λ jobs. jobs ≡ three) }
{
    let mut jobs = Seq::new(alloc);
    jobs.push(Seq::from_slice(alloc, &[Offer { word: 0, rank: 9 }])?)?;
    jobs.push(Seq::from_slice(
        alloc,
        &[Offer { word: 0, rank: 4 }, Offer { word: 1, rank: 7 }],
    )?)?;
    jobs.push(Seq::new(alloc))?;
    Ok(ListJobs::new(jobs))
}

// Makes all offers of a job that the seat claimed.
fn offer_all<J: Jobs>(race: &LeastRace<J>, seat: &mut RaceSeat, job: u32)
    requires own { IsSeatOf race.now seat.old }
    requires claimed { (job < length race.now.jobs) × (0 < times job seat.old.party.claims) }
    ensures own { IsSeatOf race.now seat.new }
    ensures same { (seat.new.party.ended ≡ seat.old.party.ended) × (seat.new.party.width ≡ seat.old.party.width) }
{
    let jobs = race.jobs();
    for item in 0..jobs.items(job) {
        if let Some(offer) = jobs.offer(job, item) {
            race.propose(seat, offer);
        }
    }
}

// Draws a job and makes its offers.
fn step<J: Jobs>(race: &LeastRace<J>, seat: &mut RaceSeat) -> Option<u32>
    requires own { IsSeatOf race.now seat.old }
    requires running { seat.old.party.ended ≡ false }
    ensures own { IsSeatOf race.now seat.new }
    ensures same { seat.new.party.width ≡ seat.old.party.width }
    ensures running { IfSome result (λ _. seat.new.party.ended ≡ false) }
{
    match race.claim(seat) {
        Some(job) => {
            offer_all(race, seat, job);
            Some(job)
        }
        None => None,
    }
}

#[tactic(auto, using(least_race::proofs::Threes::below_two))]
fn with_two_seats(alloc: Global, width: u32) -> Result<Seq<u64>, Fail>
    requires { (2 ≤ width) × (width ≤ 64) }
{
    let jobs = three_jobs(alloc)?;
    let (race, mut seat) = LeastRace::new(alloc, &[u64::MAX; 2], jobs, width)?;
    let mut other = race.split(&mut seat, width / 2);
    step(&race, &mut other).ok_or("no first job")?;
    step(&race, &mut seat).ok_or("no second job")?;
    step(&race, &mut other).ok_or("no third job")?;
    race.join(&mut seat, other);
    Ok(race.finish(seat))
}

#[test]
fn two_seats_find_the_least_ranks(rt: HostRuntime) -> Result<(), Fail> {
    for width in [2u32, 64] {
        let words = with_two_seats(rt.alloc(), width)?;
        assert_eq!(rt; words.as_slice(), [4u64, 7].as_slice());
    }
    Ok(())
}

#[test]
#[tactic(auto, using(least_race::proofs::Threes::below_two))]
fn one_seat_draws_each_job_and_one_number_more(rt: HostRuntime) -> Result<(), Fail> {
    let jobs = three_jobs(rt.alloc())?;
    assert_eq!(rt; jobs.count(), 3);
    let (race, mut seat) = LeastRace::new(rt.alloc(), &[u64::MAX; 2], jobs, 1)?;
    assert_eq!(rt; seat.last(), 0);
    assert_eq!(rt; step(&race, &mut seat).ok_or("no first job")?, 0);
    assert_eq!(rt; step(&race, &mut seat).ok_or("no second job")?, 1);
    assert_eq!(rt; step(&race, &mut seat).ok_or("no third job")?, 2);
    assert!(rt; step(&race, &mut seat).is_none());
    assert_eq!(rt; seat.last(), 3);
    let words = race.finish(seat);
    assert_eq!(rt; words.as_slice(), [4u64, 7].as_slice());
    Ok(())
}
