//! What the program reads from and writes to: named files, each held whole.
ghost use Rattle.std.specs.Prelude.{◌≡◌, IfOk, OnOk, OnErr, IsErrOf};
ghost use Rattle.wl_outside.specs.Shelf.{Shown, Grows, Same, SameBut, Holds, Torn, LoadFailed, SaveFailed};

use crate::Failed;
use std::alloc::Global;
use wl_base::{OutOfMemory, Seq};

/// Why a load failed.
#[derive(Clone, Copy, Debug, PartialEq, Eq)]
pub enum LoadFault {
    /// The name holds nothing, or it can't be read.
    Failed,
    /// Memory was refused.
    OutOfMemory,
}

impl From<OutOfMemory> for LoadFault {
    ghost use Rattle.std.specs.Prelude.{◌≡◌};
    ghost use Rattle.wl_outside.specs.declared.shelf.LoadFault.TheVariants.{OutOfMemory as WantOfMemory};

    ghost from_gives = { λ _ e. e ≡ WantOfMemory };

    fn from(_: OutOfMemory) -> Self {
        LoadFault::OutOfMemory
    }
}

/// Files by name. What it holds may be told or not; for each name it counts the loads that failed
/// and the saves that failed. No count ever falls.
pub trait Shelf {
    /// What it holds, where it tells that, and for each name how many loads and how many saves have failed.
    ghost shown: { Self → Shown };

    /// The bytes under a name, whole. It changes nothing that is held.
    ///
    /// # Errors
    /// `Failed` comes only where the name's count of failed loads rose; `OutOfMemory` may always come.
    fn load(&mut self, alloc: Global, name: &str) -> Result<Seq<u8>, LoadFault>
        ensures bytes { IfOk result (λ bytes. Holds (shown self.old) name.now bytes) }
        ensures held { Same (shown self.old) (shown self.new) }
        ensures counts { Grows (shown self.old) (shown self.new) }
        ensures cause { IsErrOf result LoadFault.Failed → LoadFailed (shown self.old) (shown self.new) name.now };

    /// Puts the bytes under a name, in place of what it holds. All else stays as it was.
    ///
    /// # Errors
    /// `Failed` comes only where the name's count of failed saves rose. The name then holds what it
    /// held, or a prefix of the bytes. There is no answer for want of memory.
    fn save(&mut self, name: &str, bytes: &[u8]) -> Result<(), Failed>
        ensures saved { OnOk result (Holds (shown self.new) name.now bytes.now) }
        ensures torn { OnErr result (Torn (shown self.old) (shown self.new) name.now bytes.now) }
        ensures others { SameBut name.now (shown self.old) (shown self.new) }
        ensures counts { Grows (shown self.old) (shown self.new) }
        ensures cause { OnErr result (SaveFailed (shown self.old) (shown self.new) name.now) };
}
