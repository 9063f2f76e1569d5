//! The section behind a module.
ghost use Rattle.std.specs.Prelude.{◌≡◌, OnOk, IfOk};
ghost use Rattle.debug_out.specs.Answers.{Answers};
ghost use Rattle.debug_out.specs.Inputs.{inputs_of};
ghost use Rattle.object_features.specs.Tail.{with_names, told_or, features_by, kept_section, feature_tail};

use crate::check::fault_of;
use crate::said::said_together;
use debug_out::DebugError;
use feature_section::{FeatureNames, write_features};
use link_plan::FeatureWords;
use object_file::Object;
use std::alloc::Global;
use wl_base::{FileSpan, Name, OutOfMemory, Seq};

/// Puts these names among the others.
fn add_names(alloc: Global, names: &mut FeatureNames, more: &[Name]) -> Result<(), OutOfMemory>
    ensures { OnOk result (names.new ≡ with_names names.old more.now) }
{
    for name in more {
        names.add(alloc, name.as_slice())?;
    }
    Ok(())
}

/// The allowed features, where words tell them, or else those that are used.
fn allowed(
    alloc: Global,
    words: &FeatureWords,
    used: FeatureNames,
) -> Result<FeatureNames, OutOfMemory>
    ensures { IfOk result (λ names. names ≡ told_or words.now.allowed used) }
{
    match &words.allowed {
        None => Ok(used),
        Some(told) => {
            let mut names = FeatureNames::new(alloc);
            add_names(alloc, &mut names, told.as_slice())?;
            Ok(names)
        }
    }
}

/// The features that the module says.
fn features(
    alloc: Global,
    words: &FeatureWords,
    used: FeatureNames,
) -> Result<FeatureNames, OutOfMemory>
    ensures { IfOk result (λ names. names ≡ features_by words.now used) }
{
    let mut names = allowed(alloc, words, used)?;
    add_names(alloc, &mut names, words.extra.as_slice())?;
    Ok(names)
}

/// The section of these features, where words keep it.
fn kept(alloc: Global, words: &FeatureWords, names: &FeatureNames) -> Result<Seq<u8>, OutOfMemory>
    ensures { IfOk result (λ bytes. bytes ≡ kept_section words.now names.now) }
{
    if !words.kept {
        return Ok(Seq::new(alloc));
    }
    let list = names.list(alloc)?;
    write_features(alloc, list.as_slice())
}

/// The section `target_features` of a module whose loaded objects are these, whose bytes are parts of files; nothing where words don't ask for
/// it. Where words ask for the check, the objects agree about features.
///
/// # Errors
///
/// `Refused` with `Malformed`, the first section `target_features` of an object that isn't spelled whole, where features are looked at; else
/// with `Feature`, where words ask for the check: of the objects in their order the first that uses a feature which words don't allow, else the first that
/// goes against what another one says. `OutOfMemory`.
#[tactic(auto, unfolding(crate::specs::Tail::feature_tail), using(crate::proofs::Steps::broken, crate::proofs::Steps::is_said, crate::proofs::Steps::refused, crate::proofs::Steps::passed))]
pub fn feature_tail(
    alloc: Global,
    words: &Option<FeatureWords>,
    objects: &[Object],
    files: &[Seq<u8>],
    spans: &[FileSpan],
) -> Result<Seq<u8>, DebugError>
    ensures { Answers result (feature_tail words.now (inputs_of files.now objects.now spans.now)) }
{
    let Some(words) = words else {
        return Ok(Seq::new(alloc));
    };
    let said = said_together(alloc, objects, files, spans)?;
    let plain = said.plain;
    let names = features(alloc, words, said.names)?;
    let fault = fault_of(alloc, words, &names, plain, objects, files, spans)?;
    if let Some(fault) = fault {
        return Err(DebugError::Refused(fault));
    }
    let section = kept(alloc, words, &names)?;
    Ok(section)
}
