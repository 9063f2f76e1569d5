//! How relocations and a body disagree.
ghost use Rattle.std.specs.Prelude.{◌≡◌};
ghost use Rattle.body_windows.specs.Fault.{window_fault};
ghost use Rattle.body_windows.specs.declared.fault.WindowFault.TheVariants as faults;

use wl_base::OutOfMemory;

/// How relocations and a body disagree: the first of these that applies, in this order, each at its
/// least place. Places count from the start of the code section's payload, as the offsets of
/// relocations do.
#[derive(Clone, Copy, Debug, PartialEq, Eq)]
pub enum Mismatch {
    /// A relocation begins before the window of the one listed before it ends.
    Overlap(u32),
    /// The window of a relocation isn't the five bytes of an immediate of its type's kind.
    OffImmediate(u32),
    /// An immediate that has to have a relocation has none.
    BareIndex(u32),
}

/// The same, or want of memory.
#[derive(Clone, Copy, Debug, PartialEq, Eq)]
pub enum WindowFault {
    /// A relocation begins before the window of the one listed before it ends.
    Overlap(u32),
    /// The window of a relocation isn't the five bytes of an immediate of its type's kind.
    OffImmediate(u32),
    /// An immediate that has to have a relocation has none.
    BareIndex(u32),
    /// Memory was refused. It says nothing of the body.
    OutOfMemory,
}

impl From<OutOfMemory> for WindowFault {
    ghost from_gives = { λ _ f. f ≡ faults.OutOfMemory };

    fn from(_: OutOfMemory) -> WindowFault {
        WindowFault::OutOfMemory
    }
}

impl From<Mismatch> for WindowFault {
    ghost from_gives = { λ e f. f ≡ window_fault e };

    fn from(e: Mismatch) -> WindowFault {
        match e {
            Mismatch::Overlap(place) => WindowFault::Overlap(place),
            Mismatch::OffImmediate(place) => WindowFault::OffImmediate(place),
            Mismatch::BareIndex(place) => WindowFault::BareIndex(place),
        }
    }
}
