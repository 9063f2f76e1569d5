//! Writing bytes whole.

use std::io::Write;
use wl_outside::Failed;

/// Writes until nothing is left. A write that takes nothing is a fault.
pub fn write_all<W: Write>(file: &mut W, bytes: &[u8]) -> Result<(), Failed> {
    let mut at = 0;
    while at < bytes.len() {
        let Ok(count) = file.write(&bytes[at..]) else {
            return Err(Failed);
        };
        if count == 0 {
            return Err(Failed);
        }
        at += count;
    }
    Ok(())
}
