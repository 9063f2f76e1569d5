//! What holds of the two races whatever the order of their steps, each law as the contract of a
//! function that does nothing.
ghost use Rattle.name_jobs.specs.Races.{GroupRace, NameRace};

/// After every complete schedule of the jobs of names, the word of each name's number is the rank
/// of the name's winner.
pub fn name_race()
    ensures { NameRace }
{}

/// After every complete schedule of the jobs of groups, the word of each group's number is the
/// group's winner.
pub fn group_race()
    ensures { GroupRace }
{}
