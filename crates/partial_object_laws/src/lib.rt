//! The relocatable object that a partial link makes of inputs that were read of their files is itself an object: its bodies with emptied windows
//! spell code, its globals their values, what reads an address reads it still, and so its bytes are read.
//!
//! The laws stand as calls that do nothing: their contracts are the laws.
#![tactic(auto)]

ghost use Rattle.partial_object_laws.specs.ReadAlone.{ReadWell, BodiesAreCoded, GlobalsAreSpelled, AddressesAreRead, PartialsAreObjects};

use object_file::{
    addresses_are_only_read, operands_stand_on_immediates, read_objects_are_sound,
    read_objects_are_spellable,
};
use output_module::filled_bodies_are_read;
use partial_parts_laws::{are_writable, objects_are_named, read_have_addends, rules_are_kept};
use partial_rules::laws::relocatable_bytes_are_an_object;

/// Objects that were read of their files are sound, lie in them, are named as they are read, and have spellings.
pub fn read_well()
    ensures { ReadWell }
{
    read_objects_are_sound();
    read_objects_are_spellable();
    objects_are_named();
    read_have_addends();
}

/// The bodies of their relocatable object, in which windows are empty, spell code, and their relocations stand on its immediates.
pub fn bodies_are_coded()
    ensures { BodiesAreCoded }
{
    read_well();
    read_objects_are_sound();
    operands_stand_on_immediates();
    filled_bodies_are_read();
}

/// Its globals have the bytes by which their own objects spell their values.
pub fn globals_are_spelled()
    ensures { GlobalsAreSpelled }
{
    read_well();
    read_objects_are_sound();
}

/// Where a window in its code is for the address of a function or datum, the instruction reads it, as in the object that it is from.
pub fn addresses_are_read()
    ensures { AddressesAreRead }
{
    read_well();
    read_objects_are_sound();
    operands_stand_on_immediates();
    addresses_are_only_read();
    filled_bodies_are_read();
}

/// So it is well formed and breaks no rule of objects, and its bytes are an object. It asks that no part refers to a local symbol of one that
/// isn't kept, and that there are at most 2^30 bytes.
pub fn partials_are_objects()
    ensures { PartialsAreObjects }
{
    read_well();
    bodies_are_coded();
    globals_are_spelled();
    addresses_are_read();
    are_writable();
    rules_are_kept();
    relocatable_bytes_are_an_object();
}
