//! The relocations of the object's bodies and segments: what each window names gives that of the definition.
ghost use Rattle.partial_tree.specs.Relocs.{RelocsAre};

/// The relocations that are made of what a part names are those of the definition.
pub fn relocs_are()
    ensures { RelocsAre }
{}
