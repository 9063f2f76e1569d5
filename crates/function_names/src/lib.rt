//! The names of the functions of the output, by number, as wasm-ld writes them: definitions alone, with a
//! worked link.
#![tactic(auto)]

ghost use Rattle.function_names.specs.Laws.{VariantsAreNamed};

/// The stub of a variant has the name of the function that it stands for, behind a prefix.
pub fn variants_are_named()
    ensures { VariantsAreNamed }
{}
