//! What is loaded where one object stands for a run of inputs that are plain objects: it, and all that was loaded beside the run.
//!
//! The laws stand as calls that do nothing: their contracts are the laws.
#![tactic(auto)]

ghost use Rattle.partial_loading_laws.specs.Loads.{RunsAreLoaded};
ghost use Rattle.partial_loading_laws.specs.Names.{RunsStandForNames};

/// The candidates of the later link are those of the whole link, under other numbers behind the run, and one for the run. It loads the same of them,
/// and the one object, where that defines with the linker's own names what the run defines, and strongly refers to what the run does of all else.
pub fn runs_are_loaded()
    ensures { RunsAreLoaded }
{}

/// The object that is made of the run does: names that a group takes from one of the run's objects are defined by that which wins the group.
pub fn runs_stand_for_names()
    ensures { RunsStandForNames }
{}
