//! What a worker does with a job.
ghost use Rattle.std.specs.Prelude.{◌<◌, [], length, slice_index_or};
ghost use Rattle.least_race.specs.Jobs.{offers_in};
ghost use Rattle.least_race.specs.Race.{times};
ghost use Rattle.least_race.specs.Seats.{IsSeatOf};
ghost use Rattle.race_share.specs.Shares.{Adds};

use least_race::{Jobs, LeastRace, RaceSeat};

/// Asks for each item of a job that the seat claimed, once and in order, and proposes the offers.
pub fn propose_all<J: Jobs>(race: &LeastRace<J>, seat: &mut RaceSeat, job: u32)
    requires own { IsSeatOf race.now seat.old }
    requires claimed { (job < length race.now.jobs) × (0 < times job seat.old.party.claims) }
    ensures own { IsSeatOf race.now seat.new }
    ensures all { Adds seat.old.party seat.new.party (offers_in (slice_index_or race.now.jobs job [])) }
{
    let jobs = race.jobs();
    for item in 0..jobs.items(job) {
        if let Some(offer) = jobs.offer(job, item) {
            race.propose(seat, offer);
        }
    }
}
