//! The bytes of a plain output are read, as a module with the runs of the output's tree. The output
//! is made by copying bodies and writing into their windows; the laws here say that what comes of it
//! is spelled right, and what it spells.
#![tactic(auto)]

ghost use Rattle.output_module.specs.Filled.{FilledBody, FilledBodies, TakenBody};
ghost use Rattle.output_module.specs.Outputs.{OutputIsRead};

/// Where references stand on the immediates of a body, its bytes with the windows written spell the
/// body with numbers in the place of its references.
pub fn filled_bodies_are_read()
    ensures { FilledBody }
{
    body_windows::bodies_are_in_order();
}

/// So they do in an output of each mode, plain or shared, by the numbers of that output.
pub fn numbered_bodies_are_read()
    ensures { FilledBodies }
{
    body_windows::bodies_are_in_order();
}

/// The references that stand on the immediates of a body are those that its instructions take, if no
/// instruction sets a global of which the window names an address.
pub fn bodies_take_references()
    ensures { TakenBody }
{
    body_windows::bodies_are_in_order();
}

/// Where the output can be written (`IsWritten`), its bytes spell, by the grammar of modules, the
/// output's tree and no other, each live function with numbers for its references. They are read as
/// that module, which has, for each session and each number of steps, the trace of the tree.
pub fn outputs_are_read()
    ensures { OutputIsRead }
{
    filled_bodies_are_read();
    image_emit::bytes_are_the_module();
    image_emit::bytes_are_no_other();
}

pub use link_worlds::runs_agree;
