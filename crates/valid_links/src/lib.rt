//! The output of a link is valid where all its objects are.
#![tactic(auto)]

ghost use Rattle.valid_links.specs.Types.{NamesHaveOneType};
ghost use Rattle.valid_links.specs.Links.{LinksAreValid, LinksDontJudge};

pub use link_runs::{Inputs, facts_hold, links_run, load_inputs, loaded_objects_are_sound};
pub use output_check::{ValidError, check_output};

/// Where no names of loaded objects clash, what a live reference names has the type that its object
/// gives to the symbol: a definition, an import, or the stub of a null name.
pub fn names_have_one_type()
    ensures { NamesHaveOneType }
{
    live_mark::reached_exactly();
}

/// Where the plan isn't shared, `link_of` gives bytes, and each object that it loads is valid, the bytes spell a valid module:
/// validation finds no fault in it.
pub fn links_are_valid()
    ensures { LinksAreValid }
{
    names_have_one_type();
    output_types::outputs_are_valid();
    output_types::places_dont_count();
    link_runs::bodies_take_references();
    object_file::read_objects_are_sound();
    object_file::read_objects_are_spellable();
    link_runs::loaded_objects_are_sound();
    link_runs::values_and_segments_fit();
    link_runs::facts_hold();
    link_runs::links_run();
}

/// `link_of` judges no module: it never gives the fault of the check, which stands behind it.
pub fn links_dont_judge()
    ensures { LinksDontJudge }
{}
