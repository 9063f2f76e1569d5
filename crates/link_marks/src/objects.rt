//! Objects by their inputs.
ghost use Rattle.std.specs.Prelude.{◌≡◌, ◌==◌, option_copied, slice_get};
ghost use Rattle.std.specs.List.{find};
ghost use Rattle.link_program.specs.name_entries.View.{InputsRise};

use link_program::Object;
use wl_base::InputId;

/// The object at a place.
fn object_at(objects: &[Object], place: usize) -> Option<&Object>
    ensures { option_copied result ≡ slice_get objects.now place }
{
    objects.get(place)
}

/// The object of an input.
pub(crate) fn object_of(objects: &[Object], input: InputId) -> Option<&Object>
    requires { InputsRise 0 objects.now }
    ensures { option_copied result ≡ find (λ o. o.input == input) objects.now }
{
    let found = objects.binary_search_by_key(
        &input,
        |object: &Object| -> u32
            ensures { result ≡ object.now.input }
        { object.input },
    );
    match found {
        Ok(place) => object_at(objects, place),
        Err(_) => None,
    }
}
