//! Reading the section.
ghost use Rattle.std.specs.Prelude.{◌≡◌, List, ℕ, length, IfOk};
ghost use Rattle.wasm_grammar.specs.Fault.{Gives};
ghost use Rattle.feature_section.specs.declared.feature.Feature.{Feature};
ghost use Rattle.feature_section.specs.Fault.{Tells, GivesOnly};
ghost use Rattle.feature_section.specs.Payload.{SpellsFeatures};
ghost use Rattle.feature_section.specs.Reading.{features_at};

use crate::fault::FeaturesError;
use crate::feature::Feature;
use std::alloc::Global;
use wasm_grammar::{ReadFault, whole};
use wl_base::Seq;

/// The features of bytes that reach to this end. They are all of the bytes.
#[tactic(auto, unfolding(crate::specs::Reading::features_at))]
fn features_at(alloc: Global, end: usize, bytes: &[u8]) -> Result<Seq<Feature>, ReadFault>
    ensures { Gives (λ x. x) result (features_at end bytes.now) }
{
    whole(alloc, end, bytes)
}

/// Reads a payload, what follows the section's name (Linking.md, "Target Features Section").
///
/// A name may stand in it more than once.
///
/// # Errors
///
/// - `NotFeatures`: no list of features is spelled so.
/// - `OutOfMemory`: memory is refused. It says nothing of the payload.
pub fn read_features(alloc: Global, payload: &[u8]) -> Result<Seq<Feature>, FeaturesError>
    // What is read is spelled so.
    ensures found { IfOk result (λ features. SpellsFeatures features payload.now) }
    // What is spelled so is read, unless memory runs out.
    ensures only { (features : List Feature) → SpellsFeatures features payload.now → GivesOnly features result }
    // Which answer it is.
    ensures exact { Tells result (features_at (length payload.now) payload.now) }
{
    Ok(features_at(alloc, payload.len(), payload)?)
}
