//! The bytes of a shared output are read, as one module: what it imports, the live functions with numbers
//! for their references, and the function that makes addresses right when the module is loaded.
#![tactic(auto)]

ghost use Rattle.shared_module.specs.Fit.{SharedOutputIsWritten};
ghost use Rattle.shared_module.specs.Outputs.{SharedOutputIsRead};

/// Where a shared output can be written (`IsSharedWritten`), its bytes spell, by the grammar of modules,
/// the output's tree and no other module, each live function with numbers for its references. They are
/// read as that module, which has, for each session and each number of steps, the trace of the tree.
pub fn shared_outputs_are_read()
    ensures { SharedOutputIsRead }
{
    output_module::numbered_bodies_are_read();
    image_emit::bytes_are_the_module();
    image_emit::bytes_are_no_other();
}

/// A shared output can be written where its functions are bodies with their references, its names are
/// UTF-8, its bytes are fewer than 2^32, and the constants of objects are in their ranges.
pub fn shared_outputs_are_written()
    ensures { SharedOutputIsWritten }
{
    image_emit::entries_take_bytes();
}
