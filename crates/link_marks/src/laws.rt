//! What holds of the definitions, as calls that do nothing: the contract of each is a law.
ghost use Rattle.link_marks.specs.Laws.{AllAreMeant};

/// Where parts of a program leave nothing unresolved, all that they refer to means something.
#[tactic(auto, using(crate::proofs::AllMeant::all_are_meant))]
pub fn all_are_meant()
    ensures { AllAreMeant }
{}
