//! A sink in memory, some of whose calls fail.
ghost use Rattle.std.specs.Prelude.{◌≡◌};
ghost use Rattle.wl_outside.specs.MemSink.{mem_told, Fresh};

use crate::listed::next_is_listed;
use crate::{Failed, Sink};
use std::alloc::Global;
use wl_base::Seq;

/// Keeps the bytes that were written.
#[derive(Debug, Drop)]
pub struct MemSink {
    bytes: Seq<u8>,
    failing: Seq<u32>,
    calls: u64,
    faults: u64,
}

impl MemSink {
    /// An empty sink. The calls whose numbers are listed fail, counted from 1. It takes no memory.
    pub fn new(alloc: Global, failing: Seq<u32>) -> MemSink
        ensures { Fresh failing result }
    {
        MemSink {
            bytes: Seq::new(alloc),
            failing,
            calls: 0,
            faults: 0,
        }
    }

    /// The bytes so far.
    pub fn bytes(&self) -> &[u8]
        ensures { result.now ≡ (mem_told self.now).bytes }
    {
        self.bytes.as_slice()
    }
}

impl Sink for MemSink {
    ghost use Rattle.std.specs.Prelude.{IsErr};
    ghost use Rattle.wl_outside.specs.Sink.{Wrote};
    ghost use Rattle.wl_outside.specs.MemSink.{mem_told, NextFails, Tally};

    ghost told = { mem_told };

    /// Fails where the call is listed, and where memory is refused. Nothing is added then.
    fn write(&mut self, bytes: &[u8]) -> Result<(), Failed>
        ensures wrote { Wrote result bytes.now (mem_told self.old) (mem_told self.new) }
        ensures listed { NextFails self.old → IsErr result }
        ensures tally { Tally result self.old self.new }
    {
        let fails = next_is_listed(&mut self.calls, self.failing.as_slice());
        if !fails && self.bytes.extend_from_slice(bytes).is_ok() {
            return Ok(());
        }
        self.faults = self.faults.saturating_add(1);
        Err(Failed)
    }
}
