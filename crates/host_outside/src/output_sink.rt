//! The sink of standard output, or of standard error. It tells nothing of what was written.

use crate::writing::write_all;
use std::io;
use wl_outside::{Failed, Sink};

/// What a runtime prints to.
#[derive(Drop)]
pub struct OutputSink<'a, R: Print> {
    rt: &'a R,
    faults: u64,
}

impl<'a, R: Print> OutputSink<'a, R> {
    /// A sink on which nothing has failed yet.
    pub fn new(rt: &'a R) -> Self {
        OutputSink { rt, faults: 0 }
    }
}

impl<R: Print> Sink for OutputSink<'_, R> {
    ghost use Rattle.std.specs.Prelude.{false, []};

    ghost told = { λ s. record { tells = false; bytes = []; faults = s.faults } };

    fn write(&mut self, bytes: &[u8]) -> Result<(), Failed> {
        match write_all(&mut io::writer(self.rt), bytes) {
            Ok(()) => Ok(()),
            Err(Failed) => {
                self.faults = self.faults.saturating_add(1);
                Err(Failed)
            }
        }
    }
}
