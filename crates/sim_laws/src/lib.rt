//! Two worlds of which one is the other renamed give the same traces: the step that takes what is said of modules
//! to what a module was linked from. The law speaks of any two such worlds, so whoever shows that a link's worlds
//! pair needs no induction over steps.
#![tactic(auto)]

ghost use Rattle.sim_laws.specs.Pairs.{Lockstep};

/// Worlds that pair give equal traces from states that pair, for each session and each bound on steps.
pub fn lockstep()
    ensures { Lockstep }
{}
