//! Why a step of a link stops.
ghost use Rattle.link_program.specs.Answers.{Passes};

use wl_base::{Fault, LayoutError, OutOfMemory};

/// Why a link, or a step of it, gives nothing.
#[derive(Debug, PartialEq, Eq, Drop)]
pub enum LinkError {
    /// The first fault that applies.
    Refused(Fault),
    /// Memory was refused. It says nothing of what is linked.
    OutOfMemory,
}

impl From<OutOfMemory> for LinkError {
    ghost use Rattle.std.specs.Prelude.{◌≡◌};
    ghost use Rattle.link_program.specs.declared.error.LinkError.TheVariants.{OutOfMemory as WantOfMemory};

    ghost from_gives = { λ _ e. e ≡ WantOfMemory };

    fn from(_: OutOfMemory) -> Self {
        LinkError::OutOfMemory
    }
}

impl From<LayoutError> for LinkError {
    ghost use Rattle.std.specs.Prelude.{◌≡◌};
    ghost use Rattle.link_program.specs.Answers.{of_layout};

    ghost from_gives = { λ from e. e ≡ of_layout from };

    fn from(error: LayoutError) -> Self {
        match error {
            LayoutError::Overflow { what, needed } => {
                LinkError::Refused(Fault::Overflow { what, needed })
            }
            LayoutError::OutOfMemory => LinkError::OutOfMemory,
        }
    }
}

/// Stops at a fault, where there is one.
pub fn refuse(fault: Option<Fault>) -> Result<(), LinkError>
    ensures { Passes result fault }
{
    match fault {
        Some(fault) => Err(LinkError::Refused(fault)),
        None => Ok(()),
    }
}
