//! The sections for tools that stand behind the module, beside debug sections: the names of its functions,
//! and the features that it uses, with what words say of these.
ghost use Rattle.std.specs.Prelude.{◌≡◌, ◌++◌, ◌∷◌, [], IfOk, OnOk};
ghost use Rattle.std.specs.List.{filter};
ghost use Rattle.std.specs.Option.{option_map};
ghost use Rattle.driver_fields.specs.Sections.{is_kept as is_kept_of, keeps_section as keeps_section_of, has_section as has_section_of, keeps_names as keeps_names_of, is_value, values_of, allowed_features as allowed_features_of, shared_features, extra_features as extra_features_of, feature_words as feature_words_of};

use crate::fields::{has, is_on, is_partial, is_shared, text};
use driver_table::{Item, Meaning};
use link_plan::FeatureWords;
use std::alloc::Global;
use wl_base::{Name, OutOfMemory, Seq};

// Whether a word keeps the section of this name.
fn is_kept(item: &Item<'_>, name: &str) -> bool
    ensures { result ≡ is_kept_of name.now item.now }
{
    item.meaning().is(Meaning::KeepSection) && item.value() == name
}

// Whether one of the words keeps it.
fn keeps_section(items: &[Item<'_>], name: &str) -> bool
    ensures { result ≡ keeps_section_of name.now items.now }
{
    items.iter().any(|item| is_kept(item, name))
}

// Whether the section of this name is written: `--strip-all` takes all that no word keeps.
fn has_section(items: &[Item<'_>], name: &str) -> bool
    ensures { result ≡ has_section_of name.now items.now }
{
    keeps_section(items, name) || !has(items, Meaning::StripAll)
}

/// Whether the module has a section `name`. An object in place of a module has none.
pub fn keeps_names(items: &[Item<'_>]) -> bool
    ensures { result ≡ keeps_names_of items.now }
{
    !is_partial(items) && has_section(items, "name")
}

// Puts a part behind the names, but for an empty one.
fn add_value(alloc: Global, part: &str, names: &mut Seq<Name>) -> Result<(), OutOfMemory>
    ensures { OnOk result (names.new ≡ names.old ++ filter is_value (part.now ∷ [])) }
{
    if part.is_empty() {
        return Ok(());
    }
    names.push(Seq::from_slice(alloc, part.as_bytes())?)?;
    Ok(())
}

// Puts the values of an option of several behind the names.
fn add_values(alloc: Global, value: &str, names: &mut Seq<Name>) -> Result<(), OutOfMemory>
    ensures { OnOk result (names.new ≡ names.old ++ values_of value.now) }
{
    for part in value.split(',') {
        add_value(alloc, part, names)?;
    }
    Ok(())
}

// The features that the module may use, where words say which.
fn allowed_features(alloc: Global, items: &[Item<'_>]) -> Result<Option<Seq<Name>>, OutOfMemory>
    ensures { IfOk result (λ names. names ≡ allowed_features_of items.now) }
{
    let Some(value) = text(items, Meaning::Features) else {
        return Ok(None);
    };
    let mut names = Seq::new(alloc);
    add_values(alloc, value, &mut names)?;
    Ok(Some(names))
}

// The features that the module has beside those of its objects.
fn extra_features(alloc: Global, items: &[Item<'_>]) -> Result<Seq<Name>, OutOfMemory>
    ensures { IfOk result (λ names. names ≡ extra_features_of items.now) }
{
    let mut names = Seq::new(alloc);
    if is_shared(items) {
        names.push(Seq::from_slice(alloc, b"mutable-globals".as_slice())?)?;
    }
    if let Some(value) = text(items, Meaning::ExtraFeatures) {
        add_values(alloc, value, &mut names)?;
    }
    Ok(names)
}

/// What is said of features; none of an object in place of a module.
///
/// # Errors
/// Want of memory.
pub fn feature_words(alloc: Global, items: &[Item<'_>]) -> Result<Option<FeatureWords>, OutOfMemory>
    ensures { IfOk result (λ words. words ≡ feature_words_of items.now) }
{
    if is_partial(items) {
        return Ok(None);
    }
    let allowed = allowed_features(alloc, items)?;
    let extra = extra_features(alloc, items)?;
    Ok(Some(FeatureWords {
        allowed,
        extra,
        checked: is_on(
            items,
            Meaning::CheckFeatures,
            Meaning::NoCheckFeatures,
            true,
        ),
        kept: has_section(items, "target_features"),
    }))
}
