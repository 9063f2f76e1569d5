//! A partial link followed by a link gives what one link gives: the law, in `specs/PartialThenLink.antt`, and what is proved of it, as calls
//! that do nothing: their contracts are the laws.
//!
//! The symbols of the later link, in which one object stands for a run of neighbouring inputs, are those of the whole link that are kept, each by
//! what it is there (`specs/Joining.antt`, `Standing.antt`).
#![tactic(auto)]

ghost use Rattle.partial_laws.specs.Kept.{PartsAreKept};
ghost use Rattle.partial_laws.specs.Names.{NamesAreKept};
ghost use Rattle.partial_laws.specs.Programs.{ProgramsAgree, ProgramsAreOf};

/// Which parts are kept by groups where one object stands for a run: those of other inputs as they were, and those of the run that are kept in
/// the run alone and that no group of an input before it takes away.
pub fn parts_are_kept()
    ensures { PartsAreKept }
{}

/// Where one object stands for a run, winners and meanings are the same but for places, imports have one order, and no name is defined twice
/// that wasn't.
pub fn names_are_kept()
    ensures { NamesAreKept }
{}

/// The program of loaded objects has their entries, winners and symbols.
pub fn programs_are_of_their_objects()
    ensures { ProgramsAreOf }
{}

/// So the program of the later link has the moved winners of that of the whole link and the same imports in one order, no fault of names that it
/// hadn't, and the same null functions in one order where the same are called.
pub fn programs_agree_on_names()
    ensures { ProgramsAgree }
{}
