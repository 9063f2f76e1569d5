//! A shared output under any bases that agree with its section `dylink.0` runs as the loaded objects run
//! with nothing linked. The contracts are the laws, said of the definition of the whole link.
#![tactic(auto)]

ghost use Rattle.shared_runs.specs.Links.{PlacesDoNotCount, SharedMemoryHolds, SharedOutputsRun};

/// Where bases agree with the output's section, the memory holds all live segments from its base on: one
/// behind another, those of zeros last.
pub fn shared_memory_holds()
    ensures { SharedMemoryHolds }
{}

/// Modules that are the same but for the places of their instructions have the same traces, wherever a
/// loader places them.
pub fn places_do_not_count()
    ensures { PlacesDoNotCount }
{}

/// Where the plan is shared and `link_of` gives bytes: under all bases that agree with the output's
/// section, for each session and each number of steps, the trace of the loaded objects is that of the
/// module which the bytes are read as.
pub fn shared_outputs_run()
    ensures { SharedOutputsRun }
{
    live_mark::reached_exactly();
    places_do_not_count();
    shared_memory_holds();
    shared_worlds::shared_runs_agree();
    shared_laws::shared_words_are_loaded();
    link_inputs::loaded_objects_are_sound();
    program_build::laws::parts_stand();
}
