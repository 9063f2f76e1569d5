//! A large file is read by several threads, each a part of it: most of the time goes into copying.

use std::alloc::Global;
use std::fs::{File, OpenFile};
use std::os::unix::fs::FileExt;
use std::sync::atomic::{AtomicBool, Ordering};
use std::thread;
use std::thread::Threads;
use wl_fan::Workers;

/// A file that is read by several threads is at least so long.
pub const LEAST_LARGE: u64 = 1 << 23;

// A longer one is left to those that read it in order.
const MOST_LARGE: u64 = 1 << 32;

// The length of a regular file that is worth several threads, and not longer than a file may be.
fn large_len(file: &File) -> Option<usize> {
    let metadata = file.metadata().ok()?;
    let len = metadata.len();
    if metadata.is_file() && LEAST_LARGE <= len && len <= MOST_LARGE {
        Some(len as usize)
    } else {
        None
    }
}

// Whether the file has bytes for the whole part, from this place on.
fn fills(file: &File, part: &mut [u8], place: u64) -> bool {
    file.read_exact_at(part, place).is_ok()
}

// Whether the file ends at this place.
fn ends_at(file: &File, place: u64) -> bool {
    matches!(file.read_at(&mut [0], place), Ok(0))
}

// Reads the file into the bytes, each worker a part, and tells whether all were filled.
fn read_parts<R: Threads + Sync>(rt: &R, file: &File, bytes: &mut [u8], workers: Workers) -> bool {
    let is_short = AtomicBool::new(false);
    let size = bytes.len() / workers.count() as usize + 1;
    thread::for_each_chunk_mut(
        rt,
        bytes,
        size,
        &|place, part| {
            if !fills(file, part, place as u64) {
                is_short.store(true, Ordering::SeqCst);
            }
        },
    );
    !is_short.load(Ordering::SeqCst)
}

/// The bytes of a large file, read by so many workers. There are none where it isn't large, or where its length wasn't the one that was told:
/// then it is to be read in order.
pub fn read_large<R: Threads + Sync>(
    rt: &R,
    alloc: Global,
    file: &File,
    workers: Workers,
) -> Option<Vec<u8>> {
    let len = large_len(file)?;
    let mut bytes = Vec::with_capacity(alloc, len).ok()?;
    bytes.resize(len, 0).ok()?;
    if read_parts(rt, file, bytes.as_mut_slice(), workers) && ends_at(file, len as u64) {
        Some(bytes)
    } else {
        None
    }
}
