//! What marking gives, whatever the order of the marks. Each law is the contract of a function that does
//! nothing.
ghost use Rattle.mark_bits.specs.Kept.{EveryMoment};
ghost use Rattle.mark_bits.specs.Rounds.{RoundsEnd, EveryRunOfRounds};

/// At every moment a bit is set exactly where its chunk was marked first, which no chunk is twice; and what
/// was marked has its bit set.
pub fn every_moment()
    ensures { EveryMoment }
{}

/// A complete run of rounds has at most as many rounds as chunks plus one.
pub fn rounds_end()
    ensures { RoundsEnd }
{}

/// After every complete run of rounds the set bits are exactly the chunks that the roots reach, and for
/// each of these exactly one mark answered true.
pub fn every_run_of_rounds()
    ensures { EveryRunOfRounds }
{}
