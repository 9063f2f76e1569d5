//! The race over all jobs.
ghost use Rattle.std.specs.Prelude.{◌≡◌, ℕ, ◌-◌, ◌<◌, ◌≤◌, ◌^◌, false, true, None, length, slice_index_or, IfOk};
ghost use Rattle.least_race.specs.Jobs.{WordsBelow, offers_from};
ghost use Rattle.least_race.specs.Seats.{IsSeatOf};
ghost use Rattle.race_share.specs.Offered.{RanksBelow, IsLeastOffer};
ghost use Rattle.race_share.specs.Shares.{IsFresh};

use crate::leasts::Leasts;
use crate::share::RaceShare;
use least_race::{Jobs, LeastRace, RaceSeat};
use std::alloc::Global;
use std::thread::Threads;
use wl_base::OutOfMemory;
use wl_fan::{Workers, each_half};
use wl_outside::{Gate, Phase};

// So many items at least for each worker. To start a thread takes 16 to 40 microseconds, and to look
// a name up and offer its rank a few tenths of one.
const ITEMS_A_WORKER: u64 = 128;

/// For each word the least rank that the jobs offer, or none. Each job is claimed by one worker,
/// which passes the gate and then asks for each of the job's offers, once and in order.
///
/// No more workers are used than there are jobs, nor more than two that have few items each. One job is
/// done on the caller's thread.
pub fn least_ranks<J: Jobs + Sync, G: Gate, R: Threads + Sync>(
    rt: &R,
    alloc: Global,
    phase: Phase,
    jobs: J,
    words: u32,
    workers: Workers,
    gate: &G,
) -> Result<Leasts, OutOfMemory>
    requires jobs { length (J.list jobs) < 2 ^ 31 }
    requires words { WordsBelow words (J.list jobs) }
    requires ranks { RanksBelow (2 ^ 64 - 1) (J.list jobs) }
    ensures { IfOk result (λ leasts. (i : ℕ) → IsLeastOffer (J.list jobs) i (slice_index_or leasts i None)) }
{
    let width = useful_workers(&jobs, workers);
    let base = vec![in alloc; u64::MAX; words as usize]?;
    let (race, seat) = LeastRace::new(alloc, base.as_slice(), jobs, width)?;
    let seat = run(rt, &race, gate, phase, seat, width);
    Ok(Leasts {
        words: race.finish(seat),
    })
}

// How many of the workers would have enough to do.
fn useful_workers<J: Jobs>(jobs: &J, workers: Workers) -> u32
    ensures { (1 ≤ result) × (result ≤ workers) × (result ≤ 64) }
{
    let mut items: u64 = 0;
    for job in 0..jobs.count() {
        items = items.saturating_add(u64::from(jobs.items(job)));
    }
    let busy = (items / ITEMS_A_WORKER).max(2).min(u64::from(jobs.count()));
    (busy.min(64) as u32).min(workers.count()).max(1)
}

// Works all jobs by the seat of whole width.
fn run<J: Jobs + Sync, G: Gate, R: Threads + Sync>(
    rt: &R,
    race: &LeastRace<J>,
    gate: &G,
    phase: Phase,
    seat: RaceSeat,
    width: u32,
) -> RaceSeat
    requires own { IsSeatOf race.now seat }
    requires fresh { IsFresh seat.party × (seat.party.width ≡ width) }
    requires width { (1 ≤ width) × (width ≤ 64) }
    ensures own { IsSeatOf race.now result }
    ensures whole { (result.party.width ≡ width) × (result.party.passes ≡ width) }
    ensures exact { result.party.proposals ≡ offers_from race.now.jobs result.party.claims }
{
    let share = RaceShare::new(race, gate, phase, seat, width);
    let share = halved(rt, share, width);
    share.into_seat()
}

fn halved<'a, J: Jobs + Sync, G: Gate, R: Threads + Sync>(
    rt: &R,
    mut share: RaceShare<'a, J, G>,
    width: u32,
) -> RaceShare<'a, J, G>
    requires share { (share.first ≡ 0) × (share.width ≡ width) × (share.done ≡ false) }
    requires width { (1 ≤ width) × (width ≤ 64) }
    ensures { (result.race ≡ share.entry.race) × (result.width ≡ width) × (result.done ≡ true) }
{
    each_half(rt, &mut share, 0, width);
    share
}
