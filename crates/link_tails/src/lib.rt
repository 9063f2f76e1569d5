//! What stands behind the output of a link: the joined debug sections, the names of functions, and the features that objects use, each
//! where the words ask for it. All are custom sections (Core 5.5.3), so they leave the module, its runs and that it is valid as they were.
//! Definitions and laws alone.
#![tactic(auto)]

ghost use Rattle.link_tails.specs.Keeps.{TailIsCustoms, ValidStays, RunsStay, OffsetsStay, NoWord};

pub use debug_links::{
    Inputs, ValidError, check_output, links_are_valid, links_dont_judge, links_run, load_inputs,
};

/// What stands behind an output of any length are custom sections.
pub fn tail_is_customs()
    ensures { TailIsCustoms }
{
    debug_links::tail_is_customs();
    name_section::laws::names_are_custom();
    object_features::laws::features_are_custom();
}

/// An output that spells a valid module spells it with what stands behind it, and is read as it.
pub fn valid_stays()
    ensures { ValidStays }
{
    tail_is_customs();
    module_tails::customs_say_nothing();
}

/// An output that runs as the plan and the files tell runs so with what stands behind it.
pub fn runs_stay()
    ensures { RunsStay }
{
    tail_is_customs();
    debug_links::tails_run();
}

/// Where the words ask for nothing behind it, an output is what it was.
pub fn no_word()
    ensures { NoWord }
{}

/// Each place in a function that the debug sections behind a plain output name is that of the same instruction, whatever stands behind
/// them.
pub fn offsets_stay()
    ensures { OffsetsStay }
{
    debug_links::offsets_stay();
    name_section::laws::names_are_custom();
    object_features::laws::features_are_custom();
}
