//! The features that objects use together.
ghost use Rattle.std.specs.Prelude.{◌≡◌, [], OnOk, IfOk};
ghost use Rattle.feature_section.specs.Union.{is_used, is_among, with_name, with_features, with_objects, union_of};

use crate::feature::{Feature, FeatureMark};
use crate::name_key::{NameKey, NameRef};
use std::alloc::Global;
use std::collections::BTreeSet;
use std::marker::Model;
use wl_base::{Name, OutOfMemory, Seq};

impl FeatureMark {
    /// Whether an object that says so uses the feature.
    pub fn is_used(self) -> bool
        ensures { result ≡ is_used self }
    {
        match self {
            FeatureMark::Used | FeatureMark::Required => true,
            FeatureMark::Disallowed => false,
        }
    }
}

/// The names of features, each once, in the order of their bytes.
#[derive(Drop)]
pub struct FeatureNames {
    names: BTreeSet<NameKey>,
}

impl Model for FeatureNames {
    ghost use Rattle.std.specs.Prelude.{List, ℕ};

    ghost Value = { List (List ℕ) };

    ghost view = { λ n. n.names.keys };
}

impl FeatureNames {
    /// No name.
    pub fn new(alloc: Global) -> FeatureNames
        ensures { result ≡ [] }
    {
        FeatureNames {
            names: BTreeSet::new(alloc),
        }
    }

    /// Whether a name is among them.
    pub fn contains(&self, name: &[u8]) -> bool
        ensures { result ≡ is_among self.now name.now }
    {
        self.names.contains(NameRef { bytes: name })
    }

    /// Puts a name among them, unless it is there.
    pub fn add(&mut self, alloc: Global, name: &[u8]) -> Result<(), OutOfMemory>
        ensures { OnOk result (self.new ≡ with_name self.old name.now) }
    {
        add_name(alloc, &mut self.names, name)
    }

    /// Puts the features that an object uses among them.
    pub fn add_used(&mut self, alloc: Global, features: &[Feature]) -> Result<(), OutOfMemory>
        ensures { OnOk result (self.new ≡ with_features self.old features.now) }
    {
        add_features(alloc, &mut self.names, features)
    }

    /// The names, in their order.
    pub fn list(&self, alloc: Global) -> Result<Seq<Name>, OutOfMemory>
        ensures { IfOk result (λ list. list ≡ self.now) }
    {
        names_of(alloc, &self.names)
    }
}

/// Puts a name among the names, unless it is there.
fn add_name(alloc: Global, names: &mut BTreeSet<NameKey>, name: &[u8]) -> Result<(), OutOfMemory>
    ensures { OnOk result (names.new.keys ≡ with_name names.old.keys name.now) }
{
    if names.contains(NameRef { bytes: name }) {
        return Ok(());
    }
    names.insert(NameKey::new(alloc, name)?)?;
    Ok(())
}

/// Puts the features that an object uses among the names.
pub(crate) fn add_features(
    alloc: Global,
    names: &mut BTreeSet<NameKey>,
    features: &[Feature],
) -> Result<(), OutOfMemory>
    ensures { OnOk result (names.new.keys ≡ with_features names.old.keys features.now) }
{
    for feature in features {
        if feature.mark.is_used() {
            add_name(alloc, names, feature.name.as_slice())?;
        }
    }
    Ok(())
}

/// Puts the features that the objects use among the names.
fn add_objects(
    alloc: Global,
    names: &mut BTreeSet<NameKey>,
    objects: &[Seq<Feature>],
) -> Result<(), OutOfMemory>
    ensures { OnOk result (names.new.keys ≡ with_objects names.old.keys objects.now) }
{
    for features in objects {
        add_features(alloc, names, features.as_slice())?;
    }
    Ok(())
}

/// The names, in their order.
fn names_of(alloc: Global, names: &BTreeSet<NameKey>) -> Result<Seq<Name>, OutOfMemory>
    ensures { IfOk result (λ list. list ≡ names.now.keys) }
{
    let mut list = Seq::new(alloc);
    for key in names {
        list.push(Seq::from_slice(alloc, key.as_slice())?)?;
    }
    Ok(list)
}

/// The features that these objects use: each name that one of them marks as used or required, once, in the order of their bytes. An object
/// without the section has none.
///
/// # Errors
///
/// Memory is refused.
#[tactic(auto, unfolding(crate::specs::Union::union_of))]
pub fn union_of(alloc: Global, objects: &[Seq<Feature>]) -> Result<Seq<Name>, OutOfMemory>
    ensures { IfOk result (λ names. names ≡ union_of objects.now) }
{
    let mut names = BTreeSet::new(alloc);
    add_objects(alloc, &mut names, objects)?;
    names_of(alloc, &names)
}
