//! What holds of every program of loaded objects, each law as the contract of a function that does nothing.
ghost use Rattle.program_build.specs.Standing.{StrictPartsStand, LoadedPartsStand};

/// The parts of loaded objects lie in their files, their windows stand one behind another in them, the alignments of segments are at
/// most 31, and what parts name are symbols of loaded objects with their meanings.
pub fn parts_stand()
    ensures { LoadedPartsStand }
{}

/// The same before calls are loosened.
pub fn strict_parts_stand()
    ensures { StrictPartsStand }
{}
