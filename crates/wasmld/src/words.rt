//! What the program says of words that can't be had, and the name by which it is called.

use host_outside::WordsFault;
use std::env::Env;
use std::path::Path;

// Under a name that begins so the program takes the words of compiler drivers.
const DRIVER_NAME: &str = "wasm-ld";

/// How long a path may be.
pub const LONGEST_NAME: usize = 4096;

/// The line that tells why the words can't be had.
pub fn line_of(fault: &WordsFault) -> &'static str {
    match fault {
        WordsFault::NotText => "wasmld: usage: a word is not UTF-8\n",
        WordsFault::TooMany => "wasmld: usage: too many words\n",
        WordsFault::OutOfMemory => "wasmld: out of memory\n",
    }
}

/// The last part of the name by which the program is called, where it begins as that of LLVM's linker. It is read into the bytes given.
pub fn driver_name<'a, R: Env>(rt: &R, name: &'a mut [u8]) -> Option<&'a str> {
    let Ok(len) = rt.arg(0, name) else {
        return None;
    };
    let Ok(path) = std::str::from_utf8(&name[..len]) else {
        return None;
    };
    match Path::new(path).file_name() {
        Some(name) if name.starts_with(DRIVER_NAME) => Some(name),
        _ => None,
    }
}
