//! A shelf in memory that fails for no name but those that it doesn't hold.
ghost use Rattle.std.specs.Prelude.{◌≡◌, ◌≤◌, vec_capacity, IfOk, option_copied};
ghost use Rattle.wl_outside.specs.Held.{NamesDiffer};

use crate::mem_shelf::find;
use crate::{Failed, Held, LoadFault, Shelf};
use std::alloc::Global;
use wl_base::{OutOfMemory, Seq, Text};

/// Holds some files, and has room for one output, which are taken when it is made. It has one count of
/// failed loads for the names that were not there from the start, one of failed saves for the output's
/// name, and one of failed saves for all other names.
#[derive(Debug, Drop)]
pub struct NeverFails {
    files: Seq<Held>,
    output: Text,
    room: usize,
    saved: bool,
    buffer: Vec<u8>,
    absent_loads: u64,
    long_saves: u64,
    other_saves: u64,
    ghost has_room: { room ≤ vec_capacity buffer },
}

impl NeverFails {
    ghost use Rattle.wl_outside.specs.NeverFails.{never_shown, Fresh};

    /// A shelf of these files, whose names differ, with room for this many bytes of the output.
    pub fn new(
        alloc: Global,
        files: Seq<Held>,
        output: Text,
        room: u32,
    ) -> Result<NeverFails, OutOfMemory>
        requires { NamesDiffer files }
        ensures { IfOk result (Fresh files output room) }
    {
        let room = room as usize;
        Ok(NeverFails {
            files,
            output,
            room,
            saved: false,
            buffer: Vec::with_capacity(alloc, room)?,
            absent_loads: 0,
            long_saves: 0,
            other_saves: 0,
        })
    }

    /// What a name holds; `None` exactly where it holds nothing.
    pub fn held(&self, name: &str) -> Option<&[u8]>
        ensures { option_copied result ≡ (never_shown self.now).held name.now }
    {
        if self.saved && self.output.as_str() == name {
            return Some(self.buffer.as_slice());
        }
        match find(self.files.as_slice(), name) {
            Some(bytes) => Some(bytes.as_slice()),
            None => None,
        }
    }
}

impl Shelf for NeverFails {
    ghost use Rattle.std.specs.Prelude.{◌↔◌, None, IsOk, IsErrOf, OnOk, OnErr};
    ghost use Rattle.wl_outside.specs.Shelf.{Grows, Same, SameBut, Holds, LoadFailed, SaveFailed};
    ghost use Rattle.wl_outside.specs.NeverFails.{never_shown, HasRoom, LoadTally, SaveTally};

    ghost shown = { never_shown };

    /// Fails exactly where the name holds nothing.
    fn load(&mut self, alloc: Global, name: &str) -> Result<Seq<u8>, LoadFault>
        ensures bytes { IfOk result (λ bytes. Holds (never_shown self.old) name.now bytes) }
        ensures held { Same (never_shown self.old) (never_shown self.new) }
        ensures counts { Grows (never_shown self.old) (never_shown self.new) }
        ensures cause { IsErrOf result LoadFault.Failed → LoadFailed (never_shown self.old) (never_shown self.new) name.now }
        ensures fails { IsErrOf result LoadFault.Failed ↔ ((never_shown self.old).held name.now ≡ None) }
        ensures tally { LoadTally name.now self.old self.new }
    {
        match self.held(name) {
            Some(bytes) => Ok(Seq::from_slice(alloc, bytes)?),
            None => {
                self.absent_loads = self.absent_loads.saturating_add(1);
                Err(LoadFault::Failed)
            }
        }
    }

    /// Succeeds exactly where the name is the output's and the bytes have room. Where it fails, all is
    /// held as before.
    fn save(&mut self, name: &str, bytes: &[u8]) -> Result<(), Failed>
        ensures saved { OnOk result (Holds (never_shown self.new) name.now bytes.now) }
        ensures kept { OnErr result (Same (never_shown self.old) (never_shown self.new)) }
        ensures others { SameBut name.now (never_shown self.old) (never_shown self.new) }
        ensures counts { Grows (never_shown self.old) (never_shown self.new) }
        ensures cause { OnErr result (SaveFailed (never_shown self.old) (never_shown self.new) name.now) }
        ensures fits { IsOk result ↔ HasRoom self.old name.now bytes.now }
        ensures tally { SaveTally name.now bytes.now self.old self.new }
    {
        if self.output.as_str() != name {
            self.other_saves = self.other_saves.saturating_add(1);
            return Err(Failed);
        }
        if bytes.len() > self.room {
            self.long_saves = self.long_saves.saturating_add(1);
            return Err(Failed);
        }
        self.buffer.clear();
        match self.buffer.extend_from_slice(bytes) {
            Ok(()) => {
                self.saved = true;
                Ok(())
            }
            Err(_) => unreachable!(),
        }
    }
}
