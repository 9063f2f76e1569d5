//! The function, the segment and the global of a chunk, as its object has it. Parts come object by object, so the object of one mostly
//! stands where that of the last one stood, and else it is searched for.
ghost use Rattle.std.specs.Prelude.{◌≡◌, true, slice_get, option_map, option_and_then, option_copied};
ghost use Rattle.partial_tree.specs.link_program.object_columns.Seen.{function_seen, segment_seen};
ghost use Rattle.partial_tree.specs.link_program.name_entries.View.{InputsRise};
ghost use Rattle.partial_items.specs.Owned.{object_at};
ghost use Rattle.partial_items.specs.Items.{chunk_of};

use partial_tree::{FunctionRef, GlobalDef, Object, SegmentRef, Tables, part_at};
use wl_base::InputId;

/// Where the object of an input stands.
fn search(objects: &[Object], input: InputId) -> Option<usize>
    requires { InputsRise 0 objects.now }
    ensures { option_and_then (slice_get objects.now) result ≡ object_at objects.now input }
{
    let found = objects.binary_search_by_key(
        &input,
        |object: &Object| -> u32
            ensures { result ≡ object.now.input }
        { object.input },
    );
    match found {
        Ok(place) => Some(place),
        Err(_) => None,
    }
}

/// The input of the object at a place.
fn input_at(objects: &[Object], place: usize) -> Option<InputId>
    ensures { result ≡ option_map (λ o. o.input) (slice_get objects.now place) }
{
    match objects.get(place) {
        Some(object) => Some(object.input),
        None => None,
    }
}

/// Whether the object of an input stands at a place.
#[tactic(auto, using(crate::proofs::Owners::is_near))]
fn is_at(objects: &[Object], place: usize, input: InputId) -> bool
    requires { InputsRise 0 objects.now }
    ensures { result ≡ true → slice_get objects.now place ≡ object_at objects.now input }
{
    match input_at(objects, place) {
        Some(own) => own == input,
        None => false,
    }
}

/// Where the object of an input stands, which perhaps is this place.
fn place_of(objects: &[Object], near: usize, input: InputId) -> Option<usize>
    requires { InputsRise 0 objects.now }
    ensures { option_and_then (slice_get objects.now) result ≡ object_at objects.now input }
{
    if is_at(objects, near, input) {
        return Some(near);
    }
    search(objects, input)
}

/// Where the object of a part stands, by the part's number.
pub(crate) fn owner_of(objects: &[Object], near: usize, tables: &Tables, part: u32) -> Option<usize>
    requires { InputsRise 0 objects.now }
    ensures { option_and_then (slice_get objects.now) result ≡ object_at objects.now (chunk_of tables.now part).input }
{
    let part = part_at(tables, part);
    place_of(objects, near, part.chunk.input)
}

/// The object at a place.
fn object_in(objects: &[Object], place: Option<usize>) -> Option<&Object>
    ensures { option_copied result ≡ option_and_then (slice_get objects.now) place }
{
    let Some(place) = place else {
        return None;
    };
    objects.get(place)
}

/// A function of the object at a place.
pub(crate) fn function_in(
    objects: &[Object],
    place: Option<usize>,
    index: u32,
) -> Option<FunctionRef<'_>>
    ensures { option_map function_seen result ≡ option_and_then (λ o. slice_get o.functions index) (option_and_then (slice_get objects.now) place) }
{
    let Some(object) = object_in(objects, place) else {
        return None;
    };
    object.functions.get(index as usize)
}

/// A segment of the object at a place.
pub(crate) fn segment_in(
    objects: &[Object],
    place: Option<usize>,
    index: u32,
) -> Option<SegmentRef<'_>>
    ensures { option_map segment_seen result ≡ option_and_then (λ o. slice_get o.segments index) (option_and_then (slice_get objects.now) place) }
{
    let Some(object) = object_in(objects, place) else {
        return None;
    };
    object.segments.get(index as usize)
}

/// A global of the object at a place.
pub(crate) fn global_in(objects: &[Object], place: Option<usize>, index: u32) -> Option<GlobalDef>
    ensures { result ≡ option_and_then (λ o. slice_get o.globals index) (option_and_then (slice_get objects.now) place) }
{
    let Some(object) = object_in(objects, place) else {
        return None;
    };
    object.globals.get(index as usize).copied()
}
