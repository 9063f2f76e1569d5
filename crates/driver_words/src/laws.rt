//! What holds of the translation, as a call that does nothing: its contract is the law.
ghost use Rattle.driver_words.specs.FrontLaws.{DroppedAreLeftOut};

/// Words that are dropped, with their values, may be left out wherever an option may stand.
#[tactic(auto, using(crate::proofs::Dropping::left_out))]
pub fn dropped_words_may_be_left_out()
    ensures { DroppedAreLeftOut }
{}
