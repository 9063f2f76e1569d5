//! A partial link followed by a link gives what one link of all gives: the law itself, over `link_of` and `partial_of`
//! (`partial_laws/specs/PartialThenLink.antt`).
//!
//! The laws stand as calls that do nothing: their contracts are the laws.
#![tactic(auto)]

ghost use Rattle.partial_laws.specs.PartialThenLink.{PartialThenLink};
ghost use Rattle.partial_link_laws.specs.Same.{LinksAreOne};

/// Where the partial link of a run of neighbouring inputs gives some bytes, and the link of all inputs gives an output, the link with these bytes in
/// the run's place gives the same output.
///
/// It asks that the names that stay open in the run are all WEAK or all strong there, and have references on imports or are data; that the init
/// functions of the run which groups define are called by the inputs that win these; that in all inputs imports by EXPLICIT_NAME of one name agree,
/// and groups of one name define the same; and that the later inputs together have fewer than 2^32 bytes.
pub fn partial_then_link()
    ensures { PartialThenLink }
{
    partial_loading_laws::runs_are_loaded();
    partial_loading_laws::runs_stand_for_names();
    partial_object_laws::read_well();
    partial_object_laws::partials_are_objects();
    partial_parts_laws::runs_groups();
    partial_parts_laws::symbols_are_read();
    partial_parts_laws::runs_are_read();
    partial_parts_laws::runs_refer();
    partial_parts_laws::linked_files_are_same();
    partial_laws::programs_are_of_their_objects();
    object_file::objects_are_read();
    object_file::read_objects_are_sound();
    link_inputs::loaded_objects_are_sound();
}

/// So the two links are one.
pub fn links_are_one()
    ensures { LinksAreOne }
{
    partial_then_link();
}
