//! What holds of the grammar and of reading, as calls that do nothing: their contracts are the
//! laws.
ghost use Rattle.wasm_grammar.specs.Readers.{IsUnambiguous};
ghost use Rattle.wasm_grammar.specs.Stays.{IsSteady};
ghost use Rattle.reloc_section.specs.Relocs.{SpellsReloc, SpellsRelocSection, reloc_at, reloc_section_at};

/// No spelling has two entries, and none has two sections.
pub fn relocs_are_unambiguous()
    ensures entry { IsUnambiguous SpellsReloc }
    ensures section { IsUnambiguous SpellsRelocSection }
{}

/// A foreign type is the answer, whatever follows it.
pub fn relocs_are_steady()
    ensures entry { IsSteady reloc_at }
    ensures section { IsSteady reloc_section_at }
{}
