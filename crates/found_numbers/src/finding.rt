//! Keys among those that a link numbered. A table tells the number of each; where a key isn't among them it tells the first one, so a
//! number is believed where the list has the key there.
ghost use Rattle.std.specs.Prelude.{◌≡◌, position};
ghost use Rattle.link_program.specs.Keys.{same_definition, same_function_key, same_got_key, same_global_key};
ghost use Rattle.found_numbers.specs.Found.{stands_at, if_there, slot_among};

use link_layout::Numbering;
use link_program::{Definition, FunctionKey, GlobalKey, GotKey};

// ---- equality

/// Whether two keys are of one function.
fn is_same_function(a: FunctionKey, b: FunctionKey) -> bool
    ensures { result ≡ same_function_key a b }
{
    match (a, b) {
        (FunctionKey::Import(a), FunctionKey::Import(b)) => a == b,
        (FunctionKey::Stub(a), FunctionKey::Stub(b)) => a == b,
        (FunctionKey::Own { input: a, index: i }, FunctionKey::Own { input: b, index: j }) => {
            a == b && i == j
        }
        _ => false,
    }
}

fn is_same_definition(a: Definition, b: Definition) -> bool
    ensures { result ≡ same_definition a b }
{
    a.input == b.input && a.place == b.place
}

fn is_same_cell(a: GotKey, b: GotKey) -> bool
    ensures { result ≡ same_got_key a b }
{
    match (a, b) {
        (GotKey::Here(a), GotKey::Here(b)) => is_same_definition(a, b),
        (GotKey::Import(a), GotKey::Import(b)) => a == b,
        (GotKey::Null(a), GotKey::Null(b)) => a == b,
        _ => false,
    }
}

/// Whether two keys are of one global.
fn is_same_global(a: GlobalKey, b: GlobalKey) -> bool
    ensures { result ≡ same_global_key a b }
{
    match (a, b) {
        (GlobalKey::Import(a), GlobalKey::Import(b)) => a == b,
        (GlobalKey::Own { input: a, index: i }, GlobalKey::Own { input: b, index: j }) => {
            a == b && i == j
        }
        (GlobalKey::Got(a), GlobalKey::Got(b)) => is_same_cell(a, b),
        (GlobalKey::Datum(a), GlobalKey::Datum(b)) => is_same_definition(a, b),
        _ => false,
    }
}

// ---- in the lists

/// Whether a function stands at a place.
fn has_function(keys: &[FunctionKey], at: u32, key: FunctionKey) -> bool
    ensures { result ≡ stands_at same_function_key keys.now at key }
{
    match keys.get(at as usize) {
        Some(there) => is_same_function(key, *there),
        None => false,
    }
}

/// Whether a global stands at a place.
fn has_global(keys: &[GlobalKey], at: u32, key: GlobalKey) -> bool
    ensures { result ≡ stands_at same_global_key keys.now at key }
{
    match keys.get(at as usize) {
        Some(there) => is_same_global(key, *there),
        None => false,
    }
}

/// A number, where it is there.
fn if_there(there: bool, number: u32) -> Option<u32>
    ensures { result ≡ if_there there number }
{
    if there { Some(number) } else { None }
}

/// The number of a function, where the output has it.
pub fn function_at(numbering: &Numbering, key: FunctionKey) -> Option<u32>
    ensures { result ≡ position (same_function_key key) numbering.now.functions }
{
    let number = numbering.function_number(key);
    let there = has_function(numbering.functions(), number, key);
    if_there(there, number)
}

/// The slot of a function, where it has one.
pub fn slot_at(numbering: &Numbering, key: FunctionKey) -> Option<u32>
    ensures { result ≡ slot_among numbering.now key }
{
    let slot = numbering.slot(key);
    let place = slot.saturating_sub(numbering.first_slot());
    let there = has_function(numbering.slots(), place, key);
    if_there(there, slot)
}

/// The number of a global, where the output has it.
pub fn global_at(numbering: &Numbering, key: GlobalKey) -> Option<u32>
    ensures { result ≡ position (same_global_key key) numbering.now.globals }
{
    let number = numbering.global_number(key);
    let there = has_global(numbering.globals(), number, key);
    if_there(there, number)
}
