//! What holds of partial links, as calls that do nothing: their contracts are the laws.
ghost use Rattle.relink_out.specs.Laws.{PartialIsMade};

/// A partial link is refused by what is found of names, and else is what is made of the program.
#[tactic(auto, using(crate::proofs::Chained::partial_is_made))]
pub fn partial_is_made()
    ensures { PartialIsMade }
{}
