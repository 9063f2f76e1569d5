//! The output of a plain link runs as the plan and the files tell.
#![tactic(auto)]

ghost use Rattle.link_runs.specs.Links.{LinksRun};
ghost use Rattle.link_runs.specs.Runs.{OutputRuns};

/// Where a link makes sure of what `IsAccepted` lists, the output's bytes are read as a module, and
/// for each session that gives an imported memory enough pages its segments fit, and for each number
/// of steps its trace is the one that the plan and the files give.
pub fn outputs_run()
    ensures { OutputRuns }
{
    link_facts::runs_agree();
    link_facts::outputs_are_read();
    link_facts::bodies_take_references();
    link_facts::values_and_segments_fit();
}

/// Where the plan isn't shared and `link_of` gives bytes, the same holds of them: the candidates of the
/// files and the loaded objects are those of the definition.
pub fn links_run()
    ensures { LinksRun }
{
    image_emit::entries_take_bytes();
    outputs_run();
    link_facts::facts_hold();
    link_inputs::loaded_objects_are_sound();
}

pub use link_facts::{bodies_take_references, facts_hold, values_and_segments_fit};
pub use link_inputs::{Inputs, load_inputs, loaded_objects_are_sound};
