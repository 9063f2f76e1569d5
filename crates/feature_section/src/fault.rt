//! Why a payload could not be read.
ghost use Rattle.std.specs.Prelude.{◌≡◌};
ghost use Rattle.feature_section.specs.Fault.{features_fault};

use wasm_grammar::ReadFault;

/// The payload is outside the grammar, or memory is refused.
#[derive(Clone, Copy, Debug, PartialEq, Eq)]
pub enum FeaturesError {
    /// No list of features is spelled so.
    NotFeatures,
    /// Memory was refused. It says nothing of the payload.
    OutOfMemory,
}

impl From<ReadFault> for FeaturesError {
    ghost from_gives = { λ e f. f ≡ features_fault e };

    fn from(e: ReadFault) -> FeaturesError {
        match e {
            ReadFault::Stopped(_) => FeaturesError::NotFeatures,
            ReadFault::OutOfMemory => FeaturesError::OutOfMemory,
        }
    }
}
