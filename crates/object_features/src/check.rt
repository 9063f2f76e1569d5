//! Whether objects agree about features, in wasm-ld's order.
ghost use Rattle.std.specs.Prelude.{◌≡◌, IfOk, is_some, slice_index_or};
ghost use Rattle.debug_out.specs.Answers.{Answers};
ghost use Rattle.debug_out.specs.Inputs.{inputs_of};
ghost use Rattle.object_features.specs.Judged.{IsSaid, fault_within, fault_for};
ghost use Rattle.object_features.specs.Check.{outside, first_outside, rule_of, conflict_fault, first_against, fault_among};

use crate::said::{each_said, numbers};
use debug_out::DebugError;
use feature_section::{Conflict, Feature, FeatureMark, FeatureNames, first_conflict};
use link_plan::FeatureWords;
use object_file::Object;
use std::alloc::Global;
use wl_base::{Fault, FeatureRule, FileSpan, InputId, OutOfMemory, Seq};

/// The words of a command line, where an input is told.
const WORDS: InputId = 0;

/// The first feature that an object uses and that isn't among these.
fn outside(
    alloc: Global,
    names: &FeatureNames,
    input: InputId,
    features: &[Feature],
) -> Result<Option<Fault>, OutOfMemory>
    ensures { IfOk result (λ found. found ≡ outside names.now input features.now) }
{
    for feature in features {
        if feature.mark.is_used() && !names.contains(feature.name.as_slice()) {
            let name = Seq::from_slice(alloc, feature.name.as_slice())?;
            return Ok(Some(Fault::Feature {
                name,
                input,
                by: WORDS,
                rule: FeatureRule::NotAllowed,
            }));
        }
    }
    Ok(None)
}

/// The first of the objects, which have these numbers.
fn first_outside(
    alloc: Global,
    names: &FeatureNames,
    numbers: &[InputId],
    objects: &[Seq<Feature>],
) -> Result<Option<Fault>, OutOfMemory>
    ensures { IfOk result (λ found. found ≡ first_outside names.now numbers.now objects.now) }
{
    let mut ns = numbers;
    let mut os = objects;
    while let [n, more @ ..] = ns {
        let [features, others @ ..] = os else {
            return Ok(None);
        };
        if let Some(fault) = outside(alloc, names, *n, features.as_slice())? {
            return Ok(Some(fault));
        }
        ns = more;
        os = others;
    }
    Ok(None)
}

/// What a feature that is said so forbids.
fn rule_of(mark: FeatureMark) -> FeatureRule
    ensures { result ≡ rule_of mark }
{
    match mark {
        FeatureMark::Used | FeatureMark::Required => FeatureRule::Required,
        FeatureMark::Disallowed => FeatureRule::Disallowed,
    }
}

/// The number of the object at this place.
fn number_at(numbers: &[InputId], object: usize) -> InputId
    ensures { result ≡ slice_index_or numbers.now object 0 }
{
    match numbers.get(object) {
        Some(number) => *number,
        None => 0,
    }
}

/// The fault of a conflict.
fn conflict_fault(
    alloc: Global,
    numbers: &[InputId],
    objects: &[Seq<Feature>],
    conflict: Conflict,
) -> Result<Option<Fault>, OutOfMemory>
    ensures { IfOk result (λ found. found ≡ conflict_fault numbers.now objects.now conflict) }
{
    let Conflict { object, against } = conflict;
    let Some(features) = objects.get(against.object) else {
        return Ok(None);
    };
    let Some(feature) = features.get(against.place) else {
        return Ok(None);
    };
    Ok(Some(Fault::Feature {
        name: Seq::from_slice(alloc, feature.name.as_slice())?,
        input: number_at(numbers, object),
        by: number_at(numbers, against.object),
        rule: rule_of(feature.mark),
    }))
}

/// The first object that goes against what another one says.
fn first_against(
    alloc: Global,
    numbers: &[InputId],
    objects: &[Seq<Feature>],
) -> Result<Option<Fault>, OutOfMemory>
    ensures { IfOk result (λ found. found ≡ first_against numbers.now objects.now) }
{
    match first_conflict(alloc, objects)? {
        Some(conflict) => conflict_fault(alloc, numbers, objects, conflict),
        None => Ok(None),
    }
}

/// The first fault of the objects, where words allow these names alone.
fn fault_among(
    alloc: Global,
    names: &FeatureNames,
    only: bool,
    numbers: &[InputId],
    objects: &[Seq<Feature>],
) -> Result<Option<Fault>, OutOfMemory>
    ensures { IfOk result (λ found. found ≡ fault_among names.now only numbers.now objects.now) }
{
    if only {
        if let Some(fault) = first_outside(alloc, names, numbers, objects)? {
            return Ok(Some(fault));
        }
    }
    first_against(alloc, numbers, objects)
}

/// The first fault of these objects, where words allow these names alone; or the first section that is broken.
fn checked(
    alloc: Global,
    names: &FeatureNames,
    only: bool,
    objects: &[Object],
    files: &[Seq<u8>],
    spans: &[FileSpan],
) -> Result<Option<Fault>, DebugError>
    ensures { Answers result (fault_within names.now only (inputs_of files.now objects.now spans.now)) }
{
    let lists = each_said(alloc, objects, files, spans)?;
    let numbers = numbers(alloc, objects, files, spans)?;
    let fault = fault_among(alloc, names, only, numbers.as_slice(), lists.as_slice())?;
    Ok(fault)
}

/// Whether words tell which features are allowed.
fn is_told(words: &FeatureWords) -> bool
    ensures { result ≡ is_some words.now.allowed }
{
    words.allowed.is_some()
}

/// The first fault of these objects, where words ask for the check: these are the features that the module says, and `plain` tells that no object asks
/// anything of others, so that all agree.
#[tactic(auto, using(crate::proofs::Steps::not_asked, crate::proofs::Steps::judged))]
pub(crate) fn fault_of(
    alloc: Global,
    words: &FeatureWords,
    names: &FeatureNames,
    plain: bool,
    objects: &[Object],
    files: &[Seq<u8>],
    spans: &[FileSpan],
) -> Result<Option<Fault>, DebugError>
    requires { IsSaid words.now (inputs_of files.now objects.now spans.now) names.now plain }
    ensures { Answers result (fault_for words.now (inputs_of files.now objects.now spans.now)) }
{
    if !words.checked {
        return Ok(None);
    }
    let only = is_told(words);
    if plain && !only {
        return Ok(None);
    }
    let fault = checked(alloc, names, only, objects, files, spans);
    fault
}
