//! What definitions and symbols mean, as keys.
ghost use Rattle.std.specs.Prelude.{◌≡◌};
ghost use Rattle.link_program.specs.Meant.{index_of, function_of, function_meant, cell_meant};

use crate::{Definition, FunctionKey, GotKey, Lead, Symbol};

/// Which of its kind a definition is; the linker's are told by their numbers.
pub fn index_of(definition: Definition) -> u32
    ensures { result ≡ index_of definition }
{
    if definition.input == 0 {
        definition.place
    } else {
        definition.index
    }
}

/// The function of a definition.
pub fn function_of(definition: Definition) -> FunctionKey
    ensures { result ≡ function_of definition }
{
    FunctionKey::Own {
        input: definition.input,
        index: index_of(definition),
    }
}

/// The function that a symbol means; a null one is a stub of its name.
pub fn function_meant(symbol: Symbol) -> FunctionKey
    ensures { result ≡ function_meant symbol.name symbol.lead }
{
    match symbol.lead {
        Lead::Here(definition) => function_of(definition),
        Lead::Import(number) => FunctionKey::Import(number),
        Lead::Null | Lead::Nothing => FunctionKey::Stub(symbol.name.unwrap_or(0)),
    }
}

/// The cell of the address of a symbol, by the code of its kind.
pub fn cell_meant(kind: u8, lead: Lead) -> GotKey
    ensures { result ≡ cell_meant kind lead }
{
    match lead {
        Lead::Here(definition) => GotKey::Here(definition),
        Lead::Import(number) => GotKey::Import(number),
        Lead::Null | Lead::Nothing => GotKey::Null(kind),
    }
}
