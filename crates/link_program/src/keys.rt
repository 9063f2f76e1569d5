//! What numbers of the output are given to.

use crate::Definition;
use wl_base::InputId;

/// A function of the output.
#[derive(Clone, Copy, Debug, PartialEq, Eq)]
pub enum FunctionKey {
    /// The import of this number among all imports that symbols mean.
    Import(u32),
    /// One that an object defines, by its input and its place among that object's definitions; or, of input 0, the linker's of this
    /// number.
    Own { input: InputId, index: u32 },
    /// The stub of the null name of this number.
    Stub(u32),
}

/// What a cell of an address is made for.
#[derive(Clone, Copy, Debug, PartialEq, Eq)]
pub enum GotKey {
    Here(Definition),
    /// The imported function of this number.
    Import(u32),
    /// Null, by the kind of the symbol (Linking.md, "Symbol Table Subsection"): 0 a function, 1 a datum.
    Null(u8),
}

/// A global of the output.
#[derive(Clone, Copy, Debug, PartialEq, Eq)]
pub enum GlobalKey {
    /// The import of this number among all imports that symbols mean.
    Import(u32),
    /// One that an object defines, by its input and its place among that object's definitions; or, of input 0, the linker's of this
    /// number.
    Own { input: InputId, index: u32 },
    /// A cell of an address.
    Got(GotKey),
    /// The address of an exported datum.
    Datum(Definition),
}
