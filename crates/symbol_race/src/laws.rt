//! What holds of all ranks, each law as the contract of a function that does nothing.
ghost use Rattle.symbol_race.specs.Ranks.{RanksByParts, RanksDiffer};

/// Ranks are ordered by class, then by input, then by symbol, and no two definitions have one rank.
pub fn ranks_are_ordered()
    ensures order { RanksByParts }
    ensures differ { RanksDiffer }
{}
