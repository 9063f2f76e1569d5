//! The law on runs of shared outputs: a call that does nothing, whose contract is the law.
#![tactic(auto)]

ghost use Rattle.shared_links_run.specs.Links.{SharedLinksRun};

/// Where the plan is shared and `link_of` gives bytes, these are read as a module. Under all bases that
/// agree with its section `dylink.0`, for each session, each number of entries of the table and each
/// number of steps, its trace is that of the loaded objects with nothing linked.
pub fn shared_links_run()
    ensures { SharedLinksRun }
{
    shared_links::shared_links_are_read();
    shared_facts::shared_facts_hold();
    shared_runs::shared_outputs_run();
    link_inputs::loaded_objects_are_sound();
}
