//! Codes of keys, by which they are found.
ghost use Rattle.std.specs.Prelude.{◌≡◌};
ghost use Rattle.link_keys.specs.Codes.{function_code, got_code, global_code};

use link_program::{FunctionKey, GlobalKey, GotKey};

/// What tells a key from all others of its index space.
#[derive(Clone, Copy, Debug, PartialEq, Eq, Hash)]
pub struct Code {
    /// What the key is of.
    pub kind: u8,
    /// Of a definition, its input.
    pub input: u32,
    pub index: u32,
}

/// The code of a function.
pub fn function_code(key: FunctionKey) -> Code
    ensures { result ≡ function_code key }
{
    match key {
        FunctionKey::Import(index) => Code {
            kind: 0,
            input: 0,
            index,
        },
        FunctionKey::Own { input, index } => Code {
            kind: 1,
            input,
            index,
        },
        FunctionKey::Stub(index) => Code {
            kind: 2,
            input: 0,
            index,
        },
    }
}

/// The code of the cell of an address.
pub(crate) fn got_code(key: GotKey) -> Code
    ensures { result ≡ got_code key }
{
    match key {
        GotKey::Here(definition) => Code {
            kind: 2,
            input: definition.input,
            index: definition.place,
        },
        GotKey::Import(index) => Code {
            kind: 3,
            input: 0,
            index,
        },
        GotKey::Null(kind) => Code {
            kind: 4,
            input: 0,
            index: u32::from(kind),
        },
    }
}

/// The code of a global.
pub fn global_code(key: GlobalKey) -> Code
    ensures { result ≡ global_code key }
{
    match key {
        GlobalKey::Import(index) => Code {
            kind: 0,
            input: 0,
            index,
        },
        GlobalKey::Own { input, index } => Code {
            kind: 1,
            input,
            index,
        },
        GlobalKey::Got(cell) => got_code(cell),
        GlobalKey::Datum(definition) => Code {
            kind: 5,
            input: definition.input,
            index: definition.place,
        },
    }
}
