//! The keys by which the output's functions, slots, globals and types are numbered: no two of a list
//! are the same, and each that an accepted link names is there.
#![tactic(auto)]

ghost use Rattle.key_laws.specs.Differ.{KeysDiffer};
ghost use Rattle.key_laws.specs.Links.{LinksNumber};
ghost use Rattle.key_laws.specs.Standing.{KeysStand};

/// No two places of a list of keys hold the same key, so no two keys have one number.
pub fn keys_differ()
    ensures { KeysDiffer }
{}

/// Where no names clash and nothing stays unresolved, each key that live parts, exports, imports,
/// types, slots and cells name stands at its number in the list that numbers it.
pub fn keys_stand()
    ensures { KeysStand }
{
    live_mark::reached_exactly();
    link_facts::programs_are_sound();
}

/// Where the plan isn't shared and `link_of` gives bytes, both hold.
pub fn links_number()
    ensures { LinksNumber }
{
    keys_differ();
    keys_stand();
    link_inputs::loaded_objects_are_sound();
}
