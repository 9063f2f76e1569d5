//! What a wrapper is.

/// A function that calls constructors, another function with its own arguments, and destructors.
#[derive(Clone, Copy, Debug, PartialEq, Eq)]
pub struct Wrapper {
    /// The index of its type, which is that of the other function (Core 2.5.3).
    pub kind: u32,
    /// How many arguments functions of this type have.
    pub parameters: usize,
    /// The other function, by its number among all.
    pub function: u32,
}

/// Which of the two helpers stay exported.
#[derive(Clone, Copy, Debug, PartialEq, Eq)]
pub struct Asked {
    /// `__wasm_call_ctors`.
    pub ctors: bool,
    /// `__wasm_call_dtors`.
    pub dtors: bool,
}
