//! What holds of loaded objects, as a call that does nothing: its contract is the law.
ghost use Rattle.link_inputs.specs.Loaded.{LoadedAreSound};

/// The inputs of loaded objects rise from 1 on and are below 2^20; each object is what its bytes say
/// and is sound, and its bytes lie in its file.
pub fn loaded_objects_are_sound()
    ensures { LoadedAreSound }
{}
