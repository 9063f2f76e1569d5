//! Prefixes of features (Linking.md, "Target Features Section"), and the section's name.

/// `+`: the object uses the feature.
pub(crate) const USED: u8 = 0x2b;

/// `-`: no object may use the feature.
pub(crate) const DISALLOWED: u8 = 0x2d;

/// `=`: the object uses the feature, and so has each other object. Older compilers wrote it.
pub(crate) const REQUIRED: u8 = 0x3d;

/// The name of the section.
pub(crate) const SECTION_NAME: [u8; 15] = *b"target_features";

/// The number of a custom section (Core 5.5.2).
pub(crate) const CUSTOM: u8 = 0;
