//! A shelf in memory, of which single calls can be made to fail.
ghost use Rattle.std.specs.Prelude.{◌≡◌, ◌≢◌, List, ℕ, Some, OnOk, OnErr, option_copied};
ghost use Rattle.wl_outside.specs.MemShelf.{found, mem_shown, Fresh};
ghost use Rattle.wl_outside.specs.Held.{NamesDiffer};

use crate::listed::next_is_listed;
use crate::{Failed, Held, LoadFault, Shelf};
use std::alloc::Global;
use wl_base::{OutOfMemory, Seq, Text};

/// Keeps each file that was given or saved, the newest last. The newest of a name counts. It has one
/// count of failed loads and one of failed saves, for all names.
#[derive(Debug, Drop)]
pub struct MemShelf {
    alloc: Global,
    files: Seq<Held>,
    failing: Seq<u32>,
    calls: u64,
    failed_loads: u64,
    failed_saves: u64,
}

impl MemShelf {
    /// A shelf of these files, whose names differ. The calls of load and save whose numbers are listed
    /// fail; they are counted together, from 1. It takes no memory.
    pub fn new(alloc: Global, files: Seq<Held>, failing: Seq<u32>) -> MemShelf
        requires { NamesDiffer files }
        ensures { Fresh files failing result }
    {
        MemShelf {
            alloc,
            files,
            failing,
            calls: 0,
            failed_loads: 0,
            failed_saves: 0,
        }
    }

    /// What a name holds; `None` exactly where it holds nothing. It is no call that is counted.
    pub fn held(&self, name: &str) -> Option<&[u8]>
        ensures { option_copied result ≡ (mem_shown self.now).held name.now }
    {
        match find(self.files.as_slice(), name) {
            Some(bytes) => Some(bytes.as_slice()),
            None => None,
        }
    }
}

impl Shelf for MemShelf {
    ghost use Rattle.std.specs.Prelude.{◌↔◌, ◌⊎◌, None, IsErr, IsErrOf, IfOk};
    ghost use Rattle.wl_outside.specs.Shelf.{Grows, Same, SameBut, Holds, LoadFailed, SaveFailed};
    ghost use Rattle.wl_outside.specs.MemShelf.{mem_shown, NextFails, LoadTally, SaveTally};

    ghost shown = { mem_shown };

    /// Fails exactly where the call is listed, and where the name holds nothing.
    fn load(&mut self, alloc: Global, name: &str) -> Result<Seq<u8>, LoadFault>
        ensures bytes { IfOk result (λ bytes. Holds (mem_shown self.old) name.now bytes) }
        ensures held { Same (mem_shown self.old) (mem_shown self.new) }
        ensures counts { Grows (mem_shown self.old) (mem_shown self.new) }
        ensures cause { IsErrOf result LoadFault.Failed → LoadFailed (mem_shown self.old) (mem_shown self.new) name.now }
        ensures fails { IsErrOf result LoadFault.Failed ↔ (NextFails self.old ⊎ ((mem_shown self.old).held name.now ≡ None)) }
        ensures tally { LoadTally result self.old self.new }
    {
        if next_is_listed(&mut self.calls, self.failing.as_slice()) {
            self.failed_loads = self.failed_loads.saturating_add(1);
            return Err(LoadFault::Failed);
        }
        match find(self.files.as_slice(), name) {
            Some(bytes) => Ok(Seq::from_slice(alloc, bytes.as_slice())?),
            None => {
                self.failed_loads = self.failed_loads.saturating_add(1);
                Err(LoadFault::Failed)
            }
        }
    }

    /// Fails where the call is listed, and where memory is refused. All is then held as before.
    fn save(&mut self, name: &str, bytes: &[u8]) -> Result<(), Failed>
        ensures saved { OnOk result (Holds (mem_shown self.new) name.now bytes.now) }
        ensures kept { OnErr result (Same (mem_shown self.old) (mem_shown self.new)) }
        ensures others { SameBut name.now (mem_shown self.old) (mem_shown self.new) }
        ensures counts { Grows (mem_shown self.old) (mem_shown self.new) }
        ensures cause { OnErr result (SaveFailed (mem_shown self.old) (mem_shown self.new) name.now) }
        ensures listed { NextFails self.old → IsErr result }
        ensures tally { SaveTally result self.old self.new }
    {
        let fails = next_is_listed(&mut self.calls, self.failing.as_slice());
        if !fails && put(self.alloc, &mut self.files, name, bytes).is_ok() {
            return Ok(());
        }
        self.failed_saves = self.failed_saves.saturating_add(1);
        Err(Failed)
    }
}

// The newest bytes of the name.
pub fn find<'a>(files: &'a [Held], name: &str) -> Option<&'a Seq<u8>>
    ensures { option_copied result ≡ found files.now name.now }
{
    let mut newest = None;
    for file in files {
        if file.name.as_str() == name {
            newest = Some(&file.bytes);
        }
    }
    newest
}

// Adds a file behind the others.
#[tactic(auto, using(crate::proofs::Found::found_same, crate::proofs::Found::found_other))]
fn put(alloc: Global, files: &mut Seq<Held>, name: &str, bytes: &[u8]) -> Result<(), OutOfMemory>
    ensures same { OnOk result (found files.new name.now ≡ Some bytes.now) }
    ensures others { OnOk result ((n : List ℕ) → n ≢ name.now → found files.new n ≡ found files.old n) }
    ensures err { OnErr result (files.new ≡ files.old) }
{
    let name = Text::new(alloc, name)?;
    let bytes = Seq::from_slice(alloc, bytes)?;
    files.push(Held { name, bytes })?;
    Ok(())
}
