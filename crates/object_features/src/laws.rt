//! What holds of the section behind a module, as calls that do nothing: their contracts are the laws.
ghost use Rattle.object_features.specs.Laws.{FeaturesAreCustom};

/// What stands behind a module is a custom section, or none.
pub fn features_are_custom()
    ensures { FeaturesAreCustom }
{}
