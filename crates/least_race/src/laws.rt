//! What holds of a race whatever the order of its events, each law as the contract of a function
//! that does nothing.
ghost use Rattle.least_race.specs.Schedule.{EverySchedule, EveryCompleteSchedule};

/// After every schedule each word is the least of its base and the ranks proposed there, and the
/// claims are distinct and exactly the numbers below the lesser of the next number and the count of
/// jobs.
pub fn every_schedule()
    ensures { EverySchedule }
{}

/// After every complete schedule each word is the least of its base and all offers.
#[tactic(auto, using(crate::proofs::Schedules::every_complete))]
pub fn every_complete_schedule()
    ensures { EveryCompleteSchedule }
{}
