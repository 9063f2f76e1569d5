//! What the calls ask of the inputs of the objects.
ghost use Rattle.std.specs.Prelude.{◌↔◌, IsTrue};
ghost use Rattle.name_entries.specs.View.{InputsRise};

use name_entries::Object;

/// Whether the inputs of the objects rise, from 1 or more to below 2^20, as those of loaded objects do.
pub fn inputs_rise(objects: &[Object]) -> bool
    ensures { IsTrue result ↔ InputsRise 0 objects.now }
{
    let mut last = 0;
    for object in objects {
        if object.input <= last || object.input >= 1 << 20 {
            return false;
        }
        last = object.input;
    }
    true
}
