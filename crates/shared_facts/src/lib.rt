//! What a link that gives a shared output makes sure of: references and exports name what is there,
//! functions are bodies with their references, and windows of code hold their values.
#![tactic(auto)]

ghost use Rattle.shared_facts.specs.Facts.{SharedFactsHold};

pub use shared_links::{
    loaded_objects_are_sound, parts_stand, shared_links_are_read, shared_words_are_loaded,
    strict_parts_stand,
};
pub use shared_types::shared_outputs_are_valid;

/// Where the plan is shared and `link_of` gives bytes, the program of the loaded objects has all that
/// the types of its output's module ask.
pub fn shared_facts_hold()
    ensures { SharedFactsHold }
{
    shared_links::bodies_take_references();
    object_file::read_objects_are_sound();
    object_file::read_objects_are_spellable();
    object_file::operands_stand_on_immediates();
    object_file::addresses_are_only_read();
    shared_links::strict_parts_stand();
    shared_links::parts_stand();
    shared_links::loaded_objects_are_sound();
}
