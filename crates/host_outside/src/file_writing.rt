//! A file is written whole.

use crate::writing::write_all;
use std::fs::{OpenFile, OpenOptions};
use std::os::unix::fs::OpenOptionsExt;
use std::rt::Files;
use wl_outside::Failed;

// A new output may be run, as far as the process's mask lets it.
const OUTPUT_MODE: u32 = 0o777;

/// Writes the bytes as the file of this path, in place of what it has.
pub fn write_whole<R: Files>(rt: &R, name: &str, bytes: &[u8]) -> Result<(), Failed> {
    let mut options = OpenOptions::new();
    options
        .write(true)
        .create(true)
        .truncate(true)
        .mode(OUTPUT_MODE);
    let Ok(mut file) = options.open(rt, name) else {
        return Err(Failed);
    };
    write_all(&mut file, bytes)
}
