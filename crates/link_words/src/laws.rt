//! What holds of the definitions of words, as a call that does nothing: its contract is the laws.
ghost use Rattle.link_words.specs.WordLaws.{CutsAreFound, CutsAreOne, FaultsAreFirst, PlansAreCuts, RefusalsAreFirst};

/// Words are cut into items in exactly one way, or up to the first that is at fault, which has the cause that its
/// fault tells; a plan is what the items say, and a refusal their first fault.
pub fn words_are_cut()
    ensures found { CutsAreFound }
    ensures one { CutsAreOne }
    ensures faults { FaultsAreFirst }
    ensures plans { PlansAreCuts }
    ensures refusals { RefusalsAreFirst }
{}
