//! The shelf of real files, among which the libraries of a compiler driver's words are looked for.

use crate::ahead::Ahead;
use driver_words::Finder;
use host_outside::FileShelf;
use std::alloc::Global;
use std::rt::Files;
use wl_base::Seq;
use wl_outside::{Failed, LoadFault, Shelf};

/// Files by their paths.
#[derive(Drop)]
pub struct DriverShelf<'a, R: Files> {
    files: FileShelf<'a, R, Ahead>,
}

impl<'a, R: Files> DriverShelf<'a, R> {
    /// A shelf on which nothing has failed yet, with what was read ahead.
    pub fn new(rt: &'a R, alloc: Global, ahead: Ahead) -> Self {
        DriverShelf {
            files: FileShelf::new(rt, alloc, ahead),
        }
    }
}

impl<R: Files> Shelf for DriverShelf<'_, R> {
    ghost use Rattle.host_outside.specs.Untold.{untold};

    ghost shown = { λ s. untold s.files.failed_loads s.files.failed_saves };

    fn load(&mut self, alloc: Global, name: &str) -> Result<Seq<u8>, LoadFault> {
        self.files.load(alloc, name)
    }

    fn save(&mut self, name: &str, bytes: &[u8]) -> Result<(), Failed> {
        self.files.save(name, bytes)
    }
}

impl<R: Files> Finder for DriverShelf<'_, R> {
    fn holds(&self, name: &str) -> bool {
        self.files.is_there(name)
    }

    fn begins_with(&self, name: &str, front: &[u8]) -> bool {
        self.files.file_begins_with(name, front)
    }
}
