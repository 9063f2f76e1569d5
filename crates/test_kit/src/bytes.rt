//! Bytes that are put together from parts.

use std::alloc::Global;
use wl_base::{Name, OutOfMemory, Seq};

/// The name of this text.
pub fn name(alloc: Global, text: &str) -> Result<Name, OutOfMemory> {
    Seq::from_slice(alloc, text.as_bytes())
}

/// These parts, one behind another.
pub fn joined(alloc: Global, parts: &[&[u8]]) -> Result<Seq<u8>, OutOfMemory> {
    let mut all = Seq::new(alloc);
    for part in parts {
        all.extend_from_slice(part)?;
    }
    Ok(all)
}

/// The header of a module, and these sections behind it.
pub fn module_of(alloc: Global, sections: &[u8]) -> Result<Seq<u8>, OutOfMemory> {
    joined(alloc, &[b"\0asm\x01\0\0\0".as_slice(), sections])
}
