//! What holds of reading, as calls that do nothing: their contracts are the laws.
ghost use Rattle.std.specs.Prelude.{ℕ, ◌++◌, List, length};
ghost use Rattle.wasm_instr.specs.wl_base.declared.span.Span.{Span};
ghost use Rattle.wasm_instr.specs.wasm_grammar.Stays.{Stays};
ghost use Rattle.wasm_module.specs.wasm_sections.declared.section.SectionSpan.{SectionSpan};
ghost use Rattle.body_windows.specs.reloc_section.declared.entry.Reloc.{Reloc};
ghost use Rattle.object_parts.specs.declared.kind.SectionKind.{SectionKind as Kind};
ghost use Rattle.object_parts.specs.declared.parts.Parts.{Parts};
ghost use Rattle.object_parts.specs.Adding.{longer, add_kind};

/// A foreign item in a section's payload is the answer, whatever follows it in the payload.
pub fn sections_are_steady()
    ensures { (all : List SectionSpan) (relocs : List Reloc) (kind : Kind) (parts : Parts) (span : Span) (payload more : List ℕ)
        → Stays (add_kind all relocs kind parts span payload)
        (add_kind all relocs kind parts (longer span (length more)) (payload ++ more)) }
{}
