//! The shelf of real files. It tells nothing of what a file holds, and has one count of failed loads and one of failed saves for all names.

use crate::ahead::ReadAhead;
use crate::file_reading::{begins_with, read_whole};
use crate::file_writing::write_whole;
use std::alloc::Global;
use std::fs;
use std::rt::Files;
use wl_base::Seq;
use wl_outside::{Failed, LoadFault, Shelf};

/// Files by their paths.
#[derive(Drop)]
pub struct FileShelf<'a, R: Files, A: ReadAhead + Drop> {
    rt: &'a R,
    failed_loads: u64,
    failed_saves: u64,
    ahead: A,
    // through which files are read
    piece: Vec<u8>,
}

impl<'a, R: Files, A: ReadAhead + Drop> FileShelf<'a, R, A> {
    /// A shelf on which nothing has failed yet, with what was read ahead.
    pub fn new(rt: &'a R, alloc: Global, ahead: A) -> Self {
        FileShelf {
            rt,
            failed_loads: 0,
            failed_saves: 0,
            ahead,
            piece: Vec::new(alloc),
        }
    }

    /// Whether there is a file of this path.
    pub fn is_there(&self, name: &str) -> bool {
        fs::metadata(self.rt, name).is_ok()
    }

    /// Whether the file of this path can be read and begins with these bytes.
    pub fn file_begins_with(&self, name: &str, front: &[u8]) -> bool {
        begins_with(self.rt, name, front)
    }
}

impl<R: Files, A: ReadAhead + Drop> Shelf for FileShelf<'_, R, A> {
    ghost use Rattle.host_outside.specs.Untold.{untold};

    ghost shown = { λ s. untold s.failed_loads s.failed_saves };

    fn load(&mut self, alloc: Global, name: &str) -> Result<Seq<u8>, LoadFault> {
        let loaded = match self.ahead.take(name) {
            Some(loaded) => loaded,
            None => read_whole(self.rt, alloc, name, &mut self.piece),
        };
        match loaded {
            Ok(bytes) => Ok(Seq::from_vec(bytes)),
            Err(LoadFault::OutOfMemory) => Err(LoadFault::OutOfMemory),
            Err(LoadFault::Failed) => {
                self.failed_loads = self.failed_loads.saturating_add(1);
                Err(LoadFault::Failed)
            }
        }
    }

    fn save(&mut self, name: &str, bytes: &[u8]) -> Result<(), Failed> {
        match write_whole(self.rt, name, bytes) {
            Ok(()) => Ok(()),
            Err(Failed) => {
                self.failed_saves = self.failed_saves.saturating_add(1);
                Err(Failed)
            }
        }
    }
}
