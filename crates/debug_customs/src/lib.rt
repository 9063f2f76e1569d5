//! The joined debug sections of a link are custom sections, as the format spells them.
#![tactic(auto)]

ghost use Rattle.debug_customs.specs.Customs.{JoinedAreCustoms};
ghost use Rattle.debug_customs.specs.Objects.{ObjectsAreNamed};

/// Where the names of the objects' debug sections are UTF-8, which a reader of objects makes sure of,
/// what the joined sections are is spelled as custom sections, one behind another (Core 5.5.3).
pub fn sections_are_customs()
    ensures { JoinedAreCustoms }
{}

/// Where bytes are an object, the names of its custom sections are UTF-8: an object with another name is
/// refused, also where nothing else is looked at of that section (Core 5.2.4).
pub fn objects_are_named()
    ensures { ObjectsAreNamed }
{}
