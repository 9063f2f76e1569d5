//! A file is read whole.
ghost use Rattle.std.specs.Prelude.{◌≤◌};

use std::alloc::{AllocError, Global};
use std::fs;
use std::fs::OpenFile;
use std::io::Read;
use std::rt::Files;
use wl_outside::LoadFault;

// A longer file counts as a fault.
const MAX_LEN: usize = 1 << 32;

// A file is read through a piece of its own length, but of at least so many bytes and at most so many.
const LEAST_PIECE: usize = 1 << 12;

const PIECE: usize = 1 << 17;

// So many bytes of a file's front are read at a time.
const FRONT: usize = 16;

/// The bytes of a file, or why there are none.
pub type Loaded = Result<Vec<u8>, LoadFault>;

fn out_of_memory(_: AllocError) -> LoadFault {
    LoadFault::OutOfMemory
}

/// Reads the file of this path, through a piece of memory that grows as far as the files that are read through it ask.
pub fn read_whole<R: Files>(rt: &R, alloc: Global, name: &str, piece: &mut Vec<u8>) -> Loaded {
    let Ok(mut file) = fs::open(rt, name) else {
        return Err(LoadFault::Failed);
    };
    let len = told_len(&file)?;
    read_told(alloc, len, &mut file, piece)
}

/// Reads the file of this path as `read_whole` does, but a file that is told to be so long or longer is left unread.
pub fn read_shorter<R: Files>(
    rt: &R,
    alloc: Global,
    name: &str,
    piece: &mut Vec<u8>,
    least_left: u64,
) -> Option<Loaded> {
    let Ok(mut file) = fs::open(rt, name) else {
        return Some(Err(LoadFault::Failed));
    };
    let len = match told_len(&file) {
        Ok(len) => len,
        Err(fault) => return Some(Err(fault)),
    };
    if least_left <= len {
        return None;
    }
    Some(read_told(alloc, len, &mut file, piece))
}

// The length that the system tells.
fn told_len<F: OpenFile>(file: &F) -> Result<u64, LoadFault> {
    match file.metadata() {
        Ok(metadata) => Ok(metadata.len()),
        Err(_) => Err(LoadFault::Failed),
    }
}

// Reads all. The length is a hint: the file may be none that has one, or grow.
fn read_told<R: Read>(alloc: Global, len: u64, file: &mut R, piece: &mut Vec<u8>) -> Loaded {
    read_all(alloc, MAX_LEN.min(len as usize), file, piece)
}

// Reads until a read gives no bytes.
fn read_all<R: Read>(alloc: Global, len: usize, file: &mut R, piece: &mut Vec<u8>) -> Loaded
    requires { len ≤ MAX_LEN }
{
    let mut bytes = Vec::with_capacity(alloc, len + 1).map_err(out_of_memory)?;
    let size = (len + 1).max(LEAST_PIECE).min(PIECE);
    if piece.len() < size {
        piece.resize(size, 0).map_err(out_of_memory)?;
    }
    while bytes.len() <= MAX_LEN {
        let Ok(count) = file.read(piece) else {
            return Err(LoadFault::Failed);
        };
        if count == 0 {
            return Ok(bytes);
        }
        bytes
            .extend_from_slice(&piece[..count])
            .map_err(out_of_memory)?;
    }
    Err(LoadFault::Failed)
}

/// Whether the file of this path can be read and begins with these bytes.
pub fn begins_with<R: Files>(rt: &R, name: &str, front: &[u8]) -> bool {
    match fs::open(rt, name) {
        Ok(mut file) => reads(&mut file, front),
        Err(_) => false,
    }
}

// Whether what is read are these bytes.
fn reads<R: Read>(file: &mut R, mut front: &[u8]) -> bool {
    let mut piece = [0; FRONT];
    while !front.is_empty() {
        let size = FRONT.min(front.len());
        let Ok(count) = file.read(&mut piece[..size]) else {
            return false;
        };
        if count == 0 || piece[..count] != front[..count] {
            return false;
        }
        front = &front[count..];
    }
    true
}
