//! What holds of the rounds of loading, as a call that does nothing: its contract is the laws.
ghost use Rattle.round_rules.specs.RoundLaws.{RoundsEnd, LoadedIsFirstEqual, NothingIsLeft, NextIs, LeastOffers, AddedRise, RoundsOnce, LoadedOnce};

/// The rounds end after at most as many as there are candidates and one more, and the loaded inputs are the
/// first round that equals its successor, or the first fault of the rounds before it.
pub fn rounds_end()
    ensures ends { RoundsEnd }
    ensures loaded { LoadedIsFirstEqual }
    ensures nothing_left { NothingIsLeft }
    ensures next { NextIs }
    ensures least { LeastOffers }
    ensures added_rise { AddedRise }
    ensures once { RoundsOnce }
    ensures loaded_once { LoadedOnce }
{}
