//! The output of a shared link is valid where all its objects are, and so that of any link.
#![tactic(auto)]

ghost use Rattle.valid_shared_links.specs.Types.{SharedNamesHaveOneType};
ghost use Rattle.valid_shared_links.specs.Links.{SharedLinksAreValid, AllLinksAreValid};

/// Where no names of the loaded objects of a shared link clash, what a live reference names has the type
/// that its object gives to the symbol: a definition, an import, or the stub of a call by another type.
pub fn shared_names_have_one_type()
    ensures { SharedNamesHaveOneType }
{
    live_mark::reached_exactly();
    shared_facts::strict_parts_stand();
    shared_facts::parts_stand();
}

/// Where the plan is shared, `link_of` gives bytes, and each object that it loads is valid, the bytes
/// spell a valid module: validation finds no fault in it.
pub fn shared_links_are_valid()
    ensures { SharedLinksAreValid }
{
    shared_names_have_one_type();
    shared_facts::shared_outputs_are_valid();
    shared_facts::shared_facts_hold();
    shared_facts::shared_links_are_read();
    shared_facts::shared_words_are_loaded();
    output_types::places_dont_count();
    object_file::read_objects_are_sound();
    object_file::read_objects_are_spellable();
    shared_facts::loaded_objects_are_sound();
    shared_facts::strict_parts_stand();
    shared_facts::parts_stand();
}

/// Where `link_of` gives bytes, of a plain output or of a shared one, and each object that it loads is
/// valid, the bytes spell a valid module.
pub fn all_links_are_valid()
    ensures { AllLinksAreValid }
{
    valid_links::links_are_valid();
    shared_links_are_valid();
}
