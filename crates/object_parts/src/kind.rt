//! Kinds of sections.
ghost use Rattle.std.specs.Prelude.{◌≡◌};
ghost use Rattle.object_parts.specs.Kinds.{kind_of, custom_kind_of};

/// What a section holds, by its id (Core 5.5.2).
#[derive(Clone, Copy, Debug, PartialEq, Eq)]
pub enum SectionKind {
    Custom,
    Types,
    Imports,
    Functions,
    Tables,
    Memories,
    Globals,
    Exports,
    Start,
    Elements,
    DataCount,
    Code,
    Segments,
    /// Tags, by id 13; in a frame no id is above it.
    Tags,
}

impl SectionKind {
    /// The kind of the sections with this id.
    pub fn of(id: u8) -> SectionKind
        ensures { result ≡ kind_of id }
    {
        match id {
            0 => SectionKind::Custom,
            1 => SectionKind::Types,
            2 => SectionKind::Imports,
            3 => SectionKind::Functions,
            4 => SectionKind::Tables,
            5 => SectionKind::Memories,
            6 => SectionKind::Globals,
            7 => SectionKind::Exports,
            8 => SectionKind::Start,
            9 => SectionKind::Elements,
            10 => SectionKind::Code,
            11 => SectionKind::Segments,
            12 => SectionKind::DataCount,
            _ => SectionKind::Tags,
        }
    }
}

/// What a custom section holds, by its name (Linking.md, DynamicLinking.md).
#[derive(Clone, Copy, Debug, PartialEq, Eq)]
pub enum CustomKind {
    /// `linking`: the linking metadata.
    Linking,
    /// `reloc.` and more: relocations of another section.
    Relocs,
    /// `dylink.0` or `dylink`: the file is a shared module.
    Shared,
    /// Nothing that a link uses.
    Other,
}

impl CustomKind {
    /// The kind of the custom sections with this name.
    pub fn of(name: &[u8]) -> CustomKind
        ensures { result ≡ custom_kind_of name.now }
    {
        if name == b"linking".as_slice() {
            CustomKind::Linking
        } else if name.starts_with(b"reloc.".as_slice()) {
            CustomKind::Relocs
        } else if name == b"dylink.0".as_slice() || name == b"dylink".as_slice() {
            CustomKind::Shared
        } else {
            CustomKind::Other
        }
    }
}
