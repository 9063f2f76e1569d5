//! Laws of the definitions.
ghost use Rattle.live_mark.specs.Live.{ReachedLaw};

/// The search that defines the live chunks finds exactly what walks from the roots reach.
#[tactic(auto, using(crate::proofs::Searched::reached_law))]
pub fn reached_exactly()
    ensures { ReachedLaw }
{}
