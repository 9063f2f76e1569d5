//! Wrappers of exports: where nothing in a program calls `__wasm_call_ctors`, each function that a module defines and exports
//! is exported as one more function, which calls constructors, the function and destructors.
//!
//! The module comes as the linker wrote it, with the two helpers among its exports. It is cut at the sections of functions,
//! exports and code (`cutting`, `sections`), wrappers are found (`finding`, `exports`), and it is written with them
//! (`writing`, `steps`, `wrapping`); all else is copied as its bytes.
#![tactic(auto)]

mod cutting;
mod exports;
mod fault;
mod finding;
mod sections;
mod steps;
mod wrapper;
mod wrapping;
mod writing;

pub use fault::WrapFault;
pub use wrapper::{Asked, Wrapper};
pub use wrapping::wrap;
