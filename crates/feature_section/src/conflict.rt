//! Whether objects agree about features.
ghost use Rattle.std.specs.Prelude.{◌≡◌, [], None, if◌then◌else◌, OnOk, IfOk};
ghost use Rattle.feature_section.specs.Union.{is_used, with_features};
ghost use Rattle.feature_section.specs.Conflict.{said_at, said_also, said_from, said_by, used_against, lacking, object_conflict, conflict_from, first_conflict, is_mark};

use crate::feature::{Feature, FeatureMark};
use crate::name_key::{NameKey, NameRef};
use crate::union::add_features;
use std::alloc::Global;
use std::collections::{BTreeMap, BTreeSet};
use wl_base::{OutOfMemory, Seq};

/// Where something is said of a feature.
#[derive(Clone, Copy, Debug, PartialEq, Eq)]
pub struct Saying {
    /// The place of the object among the objects, from 0.
    pub object: usize,
    /// The place of the feature among those of the object, from 0.
    pub place: usize,
}

/// An object that goes against what another one says of a feature: it uses the feature, where that is disallowed, or leaves it without use, where
/// that is required.
#[derive(Clone, Copy, Debug, PartialEq, Eq)]
pub struct Conflict {
    /// The place of the object among the objects, from 0.
    pub object: usize,
    /// Where the feature is disallowed or required first.
    pub against: Saying,
}

/// What is said of features: by name, and where it is said first.
type Sayings = BTreeMap<NameKey, Saying>;

/// Notes what is said of a feature, unless it was said before.
fn note(alloc: Global, sayings: &mut Sayings, name: &[u8], at: Saying) -> Result<(), OutOfMemory>
    ensures { OnOk result (sayings.new.entries ≡ said_also sayings.old.entries name.now at) }
{
    if sayings.contains_key(NameRef { bytes: name }) {
        return Ok(());
    }
    sayings.insert(NameKey::new(alloc, name)?, at)?;
    Ok(())
}

impl FeatureMark {
    /// Whether it is this mark.
    fn is(self, mark: FeatureMark) -> bool
        ensures { result ≡ is_mark self mark }
    {
        self.byte() == mark.byte()
    }
}

/// Notes the features of an object that have this mark.
fn note_object(
    alloc: Global,
    mark: FeatureMark,
    sayings: &mut Sayings,
    object: usize,
    features: &[Feature],
) -> Result<(), OutOfMemory>
    ensures { OnOk result (sayings.new.entries ≡ said_from mark object 0 sayings.old.entries features.now) }
{
    for place in 0..features.len() {
        let feature = &features[place];
        if feature.mark.is(mark) {
            note(
                alloc,
                sayings,
                feature.name.as_slice(),
                Saying { object, place },
            )?;
        }
    }
    Ok(())
}

/// Notes the features of the objects that have this mark.
fn note_objects(
    alloc: Global,
    mark: FeatureMark,
    sayings: &mut Sayings,
    objects: &[Seq<Feature>],
) -> Result<(), OutOfMemory>
    ensures { OnOk result (sayings.new.entries ≡ said_by mark 0 sayings.old.entries objects.now) }
{
    for object in 0..objects.len() {
        note_object(alloc, mark, sayings, object, objects[object].as_slice())?;
    }
    Ok(())
}

/// Where a feature is disallowed, if the object uses it.
fn disallowed_at(disallowed: &Sayings, feature: &Feature) -> Option<Saying>
    ensures { result ≡ (if is_used feature.now.mark then said_at disallowed.now.entries feature.now.name else None) }
{
    if !feature.mark.is_used() {
        return None;
    }
    disallowed
        .get(NameRef {
            bytes: feature.name.as_slice(),
        })
        .copied()
}

/// The first feature that the object uses and another one disallows.
fn used_against(disallowed: &Sayings, object: usize, features: &[Feature]) -> Option<Conflict>
    ensures { result ≡ used_against disallowed.now.entries object features.now }
{
    for feature in features {
        if let Some(against) = disallowed_at(disallowed, feature) {
            return Some(Conflict { object, against });
        }
    }
    None
}

/// The first feature that is required and isn't among these names.
fn lacking(names: &BTreeSet<NameKey>, object: usize, required: &Sayings) -> Option<Conflict>
    ensures { result ≡ lacking names.now.keys object required.now.entries }
{
    for (name, against) in required {
        if !names.contains(name) {
            return Some(Conflict {
                object,
                against: *against,
            });
        }
    }
    None
}

/// The first required feature that an object lacks.
fn lacking_in(
    alloc: Global,
    required: &Sayings,
    object: usize,
    features: &[Feature],
) -> Result<Option<Conflict>, OutOfMemory>
    ensures { IfOk result (λ found. found ≡ lacking (with_features [] features.now) object required.now.entries) }
{
    let mut names = BTreeSet::new(alloc);
    add_features(alloc, &mut names, features)?;
    let found = lacking(&names, object, required);
    Ok(found)
}

/// The first fault of an object.
fn object_conflict(
    alloc: Global,
    disallowed: &Sayings,
    required: &Sayings,
    object: usize,
    features: &[Feature],
) -> Result<Option<Conflict>, OutOfMemory>
    ensures { IfOk result (λ found. found ≡ object_conflict disallowed.now.entries required.now.entries object features.now) }
{
    if let Some(conflict) = used_against(disallowed, object, features) {
        return Ok(Some(conflict));
    }
    if required.is_empty() {
        return Ok(None);
    }
    lacking_in(alloc, required, object, features)
}

/// The first fault of the objects.
fn conflict_among(
    alloc: Global,
    disallowed: &Sayings,
    required: &Sayings,
    objects: &[Seq<Feature>],
) -> Result<Option<Conflict>, OutOfMemory>
    ensures { IfOk result (λ found. found ≡ conflict_from disallowed.now.entries required.now.entries 0 objects.now) }
{
    for object in 0..objects.len() {
        let found = object_conflict(
            alloc,
            disallowed,
            required,
            object,
            objects[object].as_slice(),
        )?;
        if let Some(conflict) = found {
            return Ok(Some(conflict));
        }
    }
    Ok(None)
}

/// The first object that uses a feature which one disallows, or lacks a feature which one requires, as wasm-ld's check has it.
///
/// Objects are taken in their order: of each first the features that it uses, then those that are required, in the order of their names. An
/// object without the section has no features.
///
/// # Errors
///
/// Memory is refused.
#[tactic(auto, unfolding(crate::specs::Conflict::first_conflict))]
pub fn first_conflict(
    alloc: Global,
    objects: &[Seq<Feature>],
) -> Result<Option<Conflict>, OutOfMemory>
    ensures { IfOk result (λ found. found ≡ first_conflict objects.now) }
{
    let mut disallowed = BTreeMap::new(alloc);
    note_objects(alloc, FeatureMark::Disallowed, &mut disallowed, objects)?;
    let mut required = BTreeMap::new(alloc);
    note_objects(alloc, FeatureMark::Required, &mut required, objects)?;
    conflict_among(alloc, &disallowed, &required, objects)
}
