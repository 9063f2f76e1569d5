//! What holds of the section, as calls that do nothing: their contracts are the laws.
ghost use Rattle.name_section.specs.Customs.{NamesAreCustom};

/// The section is a custom section, whatever the names are.
pub fn names_are_custom()
    ensures { NamesAreCustom }
{}
