//! What a symbol means.

use wl_base::InputId;

/// What a symbol means after all names are resolved.
#[derive(Clone, Copy, Debug, PartialEq, Eq)]
pub enum Meaning {
    /// A definition of an object, by its input and its place among the input's symbols.
    Here { input: InputId, symbol: u32 },
    /// A linker-made symbol, by its number.
    Made(u32),
    /// An import, by its number among the imports.
    Import(u32),
    /// A WEAK reference without a definition: the address 0, or a stub that traps.
    Null,
    /// Nothing: it is unresolved where it is used.
    Nothing,
}
