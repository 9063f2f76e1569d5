//! Why no module is wrapped.
ghost use Rattle.std.specs.Prelude.{◌≡◌};
ghost use Rattle.export_wrappers.specs.Answer.{wrap_fault};
ghost use Rattle.export_wrappers.specs.declared.fault.WrapFault.TheVariants as faults;

use wasm_grammar::ReadFault;
use wl_base::OutOfMemory;

/// Why no module is wrapped.
#[derive(Clone, Copy, Debug, PartialEq, Eq)]
pub enum WrapFault {
    /// The bytes are no module.
    NotModule,
    /// The wrapped module would have so many bytes, which are more than 2^31 - 1.
    TooLong(u64),
    /// Memory was refused, or a number would be no u32. It says nothing of the bytes.
    OutOfMemory,
}

impl From<ReadFault> for WrapFault {
    ghost from_gives = { λ e f. f ≡ wrap_fault e };

    fn from(e: ReadFault) -> WrapFault {
        match e {
            ReadFault::Stopped(_) => WrapFault::NotModule,
            ReadFault::OutOfMemory => WrapFault::OutOfMemory,
        }
    }
}

impl From<OutOfMemory> for WrapFault {
    ghost from_gives = { λ _ f. f ≡ faults.OutOfMemory };

    fn from(_e: OutOfMemory) -> WrapFault {
        WrapFault::OutOfMemory
    }
}
