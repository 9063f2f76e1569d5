//! Whether anything names the linker's function that calls the init functions.
ghost use Rattle.std.specs.Prelude.{◌≡◌, [], length, slice_index_or, option_to_list, bytes_eq};
ghost use Rattle.std.specs.List.{list_any};
ghost use Rattle.link_marks.specs.link_program.wl_base.Choice.{has_name};
ghost use Rattle.link_marks.specs.link_program.wl_base.Names.{number_of};
ghost use Rattle.link_marks.specs.link_program.name_entries.View.{is_number};
ghost use Rattle.link_marks.specs.link_program.link_rules.Program as rules;
ghost use Rattle.link_marks.specs.link_program.link_rules.Marks.{demanded, ctors_name, names_ctors};
ghost use Rattle.link_marks.specs.link_program.made_symbols.declared.mode.Mode.TheVariants as modes;
ghost use Rattle.link_marks.specs.link_program.Program.{IsProgramOf};

use link_marks::{Names, Program};
use link_plan::Plan;
use wl_base::Name;

/// The linker's function that calls the init functions.
const CTORS: &str = "__wasm_call_ctors";

/// The number of its name.
fn ctors_number(names: &Names) -> Option<u32>
    ensures { result ≡ number_of names.now.names ctors_name }
{
    names.find(CTORS.as_bytes())
}

/// Whether one of these words is its name.
fn has_word(words: &[Name]) -> bool
    ensures { result ≡ has_name words.now ctors_name }
{
    words.iter().any(
        |word: &Name| -> bool
            ensures { result ≡ bytes_eq ctors_name word.now }
        { CTORS.as_bytes() == word.as_slice() },
    )
}

/// Whether the entry has its name.
fn is_entry(entry: &Option<Name>) -> bool
    ensures { result ≡ has_name (option_to_list entry.now) ctors_name }
{
    match entry {
        Some(name) => CTORS.as_bytes() == name.as_slice(),
        None => false,
    }
}

/// Whether the entry or a name of `--export` is its name.
fn words_name(plan: &Plan) -> bool
    ensures { result ≡ has_name (demanded plan.now) ctors_name }
{
    is_entry(&plan.entry) || has_word(plan.exports.as_slice())
}

/// Whether a symbol of an object is an entry of the name of this number.
fn object_names(names: &Names, object: u32, number: u32) -> bool
    ensures { result ≡ list_any (is_number number) (slice_index_or names.now.symbols object []) }
{
    for place in 0..names.symbols(object) {
        if names.symbol(object, place) == Some(number) {
            return true;
        }
    }
    false
}

/// Whether a symbol of the first objects is an entry of the name of this number.
fn objects_name(names: &Names, objects: u32, number: u32) -> bool
    requires { objects ≡ length names.now.symbols }
    ensures { result ≡ list_any (λ row. list_any (is_number number) row) names.now.symbols }
{
    for object in 0..objects {
        if object_names(names, object, number) {
            return true;
        }
    }
    false
}

/// Whether the words name the linker's function, or an object has an entry of its name.
pub(crate) fn names_ctors(program: Program<'_>) -> bool
    ghost p: { rules.Program }
    requires { IsProgramOf modes.Plain program p }
    ensures { result ≡ names_ctors p }
{
    if words_name(program.plan) {
        return true;
    }
    let Some(number) = ctors_number(program.names) else {
        return false;
    };
    objects_name(program.names, program.objects.len() as u32, number)
}
