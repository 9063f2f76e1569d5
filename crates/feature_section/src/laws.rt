//! What holds of the section's grammar, as calls that do nothing: their contracts are the laws.
ghost use Rattle.std.specs.Prelude.{◌≡◌, List, ℕ, map, is_some, Ok};
ghost use Rattle.std.specs.List.{All, list_any};
ghost use Rattle.std.specs.List.Sorted.{IsStrictlySortedBy};
ghost use Rattle.feature_section.specs.declared.feature.Feature.{Feature};
ghost use Rattle.feature_section.specs.Fits.{FeaturesAreUtf8, NamesAreUtf8, NamesFit};
ghost use Rattle.feature_section.specs.Payload.{SpellsFeatures};
ghost use Rattle.feature_section.specs.Reading.{features_at};
ghost use Rattle.feature_section.specs.Section.{used, features_payload};
ghost use Rattle.feature_section.specs.Conflict.{first_conflict, goes_against};
ghost use Rattle.feature_section.specs.Union.{name_cmp, is_among, uses, with_features, union_of};

/// No payload says two things.
pub fn features_are_unambiguous()
    ensures { (payload : List ℕ) (a b : List Feature) → SpellsFeatures a payload → SpellsFeatures b payload → a ≡ b }
{}

/// What is written of these names is read as these names, each marked as used.
pub fn written_is_read()
    ensures { (end : ℕ) (names : List (List ℕ)) → NamesFit names → features_at end (features_payload names) ≡ Ok (map used names) }
{}

/// Names that are read are UTF-8, and so are those of the union: so it is spelled by what is written of it.
pub fn names_are_utf8()
    ensures read { (payload : List ℕ) (features : List Feature) → SpellsFeatures features payload → FeaturesAreUtf8 features }
    ensures union { (objects : List (List Feature)) → All FeaturesAreUtf8 objects → NamesAreUtf8 (union_of objects) }
{}

/// Objects use together what one of them uses, and no name comes twice: each is less than those after it.
pub fn the_union_is_what_is_used()
    ensures used { (objects : List (List Feature)) (name : List ℕ) → is_among (union_of objects) name ≡ list_any (uses name) objects }
    ensures sorted { (objects : List (List Feature)) → IsStrictlySortedBy name_cmp (union_of objects) }
{}

/// What an object uses is used once, however often it says so.
pub fn used_twice_is_used_once()
    ensures { (names : List (List ℕ)) (features : List Feature) → with_features (with_features names features) features ≡ with_features names features }
{}

/// There is a conflict exactly where an object uses what one of the objects disallows, or doesn't use what one of them requires.
pub fn conflicts_are_found()
    ensures { (objects : List (List Feature)) → is_some (first_conflict objects) ≡ list_any (goes_against objects) objects }
{}
