//! What a shared output's words hold when a loader has placed it, as calls that do nothing: their
//! contracts are the laws.
#![tactic(auto)]

ghost use Rattle.shared_laws.specs.Linked.{WordsAreLinked};
ghost use Rattle.shared_laws.specs.Numbered.{SharedWordsAreNumbered};
ghost use Rattle.shared_laws.specs.Placed.{SharedWordsAreLoaded};

pub use program_build::laws::{parts_stand, strict_parts_stand};

/// Of a program of loaded objects, where neither the memory nor the table overflows: the windows of
/// live data rise, lie apart and end within the data, own cells of addresses rise behind the imported
/// globals, and values read imported cells alone.
pub fn words_are_linked()
    ensures { WordsAreLinked }
{
    live_mark::reached_exactly();
}

/// Where the plan is shared and `link_of` gives bytes: under all bases that agree with the output's
/// section, `__wasm_apply_data_relocs` ends, and then every window of live data and every own cell
/// holds its value.
pub fn shared_words_are_loaded()
    ensures { SharedWordsAreLoaded }
{
    words_are_linked();
    dylink_out::laws::words_are_loaded();
    link_inputs::loaded_objects_are_sound();
    program_build::laws::parts_stand();
}

/// The slots and offsets that the words hold are those of what is named: the function of each own slot
/// stands in the table there, and the datum of each own address in a live segment within the data.
pub fn shared_words_are_numbered()
    ensures { SharedWordsAreNumbered }
{
    live_mark::reached_exactly();
    link_inputs::loaded_objects_are_sound();
    program_build::laws::parts_stand();
}
