//! What an object says of a feature, as a form.
ghost use Rattle.std.specs.Prelude.{◌≡◌};
ghost use Rattle.wasm_grammar.specs.Fault.{Reads, Gives};
ghost use Rattle.feature_section.specs.Payload.{mark_byte, SpellsFeature};
ghost use Rattle.feature_section.specs.Reading.{mark_of, feature_at};

use crate::codes::{DISALLOWED, REQUIRED, USED};
use std::alloc::Global;
use wasm_grammar::{Form, ReadFault, Stop, byte_at, name_at, place};
use wl_base::Name;

/// What is said of a feature.
#[derive(Clone, Copy, Debug, PartialEq, Eq)]
pub enum FeatureMark {
    /// The object uses it.
    Used,
    /// The object uses it, and each other object has to say that it does.
    Required,
    /// No object may use it.
    Disallowed,
}

impl FeatureMark {
    /// The prefix that stands for it.
    pub(crate) fn byte(self) -> u8
        ensures { result ≡ mark_byte self }
    {
        match self {
            FeatureMark::Used => USED,
            FeatureMark::Required => REQUIRED,
            FeatureMark::Disallowed => DISALLOWED,
        }
    }
}

/// What an object says of a feature (Linking.md, "Target Features Section").
#[derive(Debug, PartialEq, Eq, Drop)]
pub struct Feature {
    pub mark: FeatureMark,
    pub name: Name,
}

/// The mark of a byte, which stands at this place. Another byte is broken.
fn mark_of(place: usize, byte: u8) -> Result<FeatureMark, Stop>
    ensures { Reads (λ x. x) result (mark_of place byte) }
{
    match byte {
        USED => Ok(FeatureMark::Used),
        REQUIRED => Ok(FeatureMark::Required),
        DISALLOWED => Ok(FeatureMark::Disallowed),
        _ => Err(Stop::Broken(place)),
    }
}

/// What is said of a feature at the front, and the bytes after it.
#[tactic(auto, unfolding(crate::specs::Reading::feature_at))]
fn feature_at(alloc: Global, end: usize, bytes: &[u8]) -> Result<(Feature, &[u8]), ReadFault>
    ensures { Gives (λ x. (x.0, x.1.now)) result (feature_at end bytes.now) }
{
    let (byte, rest) = byte_at(end, bytes)?;
    let mark = mark_of(place(end, bytes), byte)?;
    let (name, rest) = name_at(alloc, end, rest)?;
    Ok((Feature { mark, name }, rest))
}

impl Form for Feature {
    ghost use Rattle.feature_section.specs.PayloadLaws.{feature_reader};

    ghost spells = { SpellsFeature };

    ghost read_at = { feature_at };

    ghost exact = { feature_reader };

    fn form_at(alloc: Global, end: usize, bytes: &[u8]) -> Result<(Feature, &[u8]), ReadFault> {
        feature_at(alloc, end, bytes)
    }
}
