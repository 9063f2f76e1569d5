//! What the premises of the search follow from. Each law is the contract of a function that does nothing.
ghost use Rattle.name_unresolved.specs.Laws.{ResolvedIsMeant};

/// What `resolve` answers has a meaning for each symbol of the objects.
#[tactic(auto, using(crate::proofs::Meant::are_meant))]
pub fn resolved_is_meant()
    ensures { ResolvedIsMeant }
{}
