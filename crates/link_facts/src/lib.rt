//! What a link that is accepted makes sure of: that numbers fit, that the memory holds all segments,
//! that references and exports name what is there, and that functions are bodies with their references.
#![tactic(auto)]

ghost use Rattle.link_facts.specs.Facts.{FactsHold};
ghost use Rattle.link_facts.specs.Faults.{ValuesFit, MemoryHolds};
ghost use Rattle.link_facts.specs.Loaded.{ProgramsAreSound};

/// Where no fault of the link applies, windows and cells hold their values, and the memory holds all
/// segments if the session gives an imported one at least the output's pages.
pub fn values_and_segments_fit()
    ensures values { ValuesFit }
    ensures memory { MemoryHolds }
{
    live_mark::reached_exactly();
}

/// Where no names clash, references and exports of the program of loaded objects name what is there.
pub fn programs_are_sound()
    ensures { ProgramsAreSound }
{}

/// Where no names clash, the program of objects that were read has all that its runs ask: references
/// and exports name what is there, parts stand in their files, functions are bodies with their
/// references, which set no address, and globals begin with constants.
pub fn facts_hold()
    ensures { FactsHold }
{
    programs_are_sound();
    object_file::read_objects_are_sound();
    object_file::operands_stand_on_immediates();
    object_file::addresses_are_only_read();
    program_build::laws::strict_parts_stand();
    program_build::laws::parts_stand();
}

pub use output_module::{bodies_take_references, outputs_are_read, runs_agree};
