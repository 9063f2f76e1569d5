//! The bytes that a link gives for a shared output are one module.
#![tactic(auto)]

ghost use Rattle.shared_links.specs.Links.{SharedLinksAreRead};

pub use link_runs::{bodies_take_references, loaded_objects_are_sound};
pub use shared_laws::{parts_stand, shared_words_are_loaded, strict_parts_stand};

/// Where the plan is shared and `link_of` gives bytes, they spell, by the grammar of modules, one module
/// and no other: the live functions of the loaded objects with numbers for their references, and the
/// function that makes addresses right, but for the places of instructions.
pub fn shared_links_are_read()
    ensures { SharedLinksAreRead }
{
    shared_module::shared_outputs_are_read();
    shared_module::shared_outputs_are_written();
    object_file::read_objects_are_sound();
    object_file::read_objects_are_spellable();
    object_file::operands_stand_on_immediates();
    shared_laws::strict_parts_stand();
    shared_laws::parts_stand();
    link_runs::loaded_objects_are_sound();
}
