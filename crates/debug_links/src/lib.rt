//! What the debug sections behind the output of a link leave as it was: the module, its runs and that it
//! is valid, since they are custom sections (Core 5.5.3); and what they say of places in functions. Laws
//! alone.
#![tactic(auto)]

ghost use Rattle.debug_links.specs.Keeps.{TailIsCustoms, ValidStays, TailsRun, RunsStay, NoWord};
ghost use Rattle.debug_links.specs.Offsets.{OffsetsStay};

pub use valid_links::{
    Inputs, ValidError, check_output, links_are_valid, links_dont_judge, links_run, load_inputs,
};

/// What stands behind an output of any length are custom sections: the names of an object's sections are
/// UTF-8, or it isn't loaded.
pub fn tail_is_customs()
    ensures { TailIsCustoms }
{
    debug_customs::objects_are_named();
    debug_customs::sections_are_customs();
}

/// An output that spells a valid module spells it with its debug sections behind it, and is read as it.
pub fn valid_stays()
    ensures { ValidStays }
{
    tail_is_customs();
    module_tails::customs_say_nothing();
}

/// Where bytes are read as a module that runs as the plan and the files tell, so are the bytes with
/// custom sections behind them: it is the same module (Core 5.5.3).
pub fn tails_run()
    ensures { TailsRun }
{
    module_tails::customs_say_nothing();
    wasm_module::module_is_unambiguous();
}

/// An output that runs as the plan and the files tell runs so with its debug sections behind it.
pub fn runs_stay()
    ensures { RunsStay }
{
    tail_is_customs();
    tails_run();
}

/// Where the words don't ask for debug sections, an output is what it was.
pub fn no_word()
    ensures { NoWord }
{}

/// Each window for a place in a function (FUNCTION_OFFSET_I32) in the debug sections of the loaded objects,
/// where the plan isn't shared: where the function that the symbol's own object defines is live, the four
/// bytes of the window in the output name the same instruction of it; where it isn't, they hold the dead word.
pub fn offsets_stay()
    ensures { OffsetsStay }
{
    object_file::read_objects_are_spellable();
    valid_links::loaded_objects_are_sound();
    valid_links::facts_hold();
    debug_tails::offsets_name_instructions();
}
