//! What holds of immediates and operands, as calls that do nothing: their contracts are the laws.
ghost use Rattle.std.specs.Prelude.{◌≡◌, ℕ, List, length, map, Ok};
ghost use Rattle.std.specs.List.{filter};
ghost use Rattle.wasm_instr.specs.declared.body.Body.{Body};
ghost use Rattle.wasm_instr.specs.Bodies.{SpellsBody};
ghost use Rattle.reloc_section.specs.declared.entry.Reloc.{Reloc};
ghost use Rattle.body_windows.specs.declared.operand.Operand.{Operand};
ghost use Rattle.body_windows.specs.declared.operands.Reference.{Reference};
ghost use Rattle.body_windows.specs.Immediates.{immediates, AreInOrder, end_of};
ghost use Rattle.body_windows.specs.Operands.{is_reference, operand_of, spread, StandIn};
ghost use Rattle.body_windows.specs.Windows.{operand_at, windows_of};

/// The immediates of a body that was read stand one behind another, and its last instruction ends
/// where its bytes do: so `windows` may be called.
pub fn bodies_are_in_order()
    ensures order { (body : Body) (bytes : List ℕ) → SpellsBody body bytes → AreInOrder 0 (end_of 0 body.code) (immediates body.code) }
    ensures end { (body : Body) (bytes : List ℕ) → SpellsBody body bytes → end_of 0 body.code ≡ length bytes }
{}

/// The operands of a body are those of its immediates, one for each, in order.
pub fn operands_are_of_immediates()
    ensures { (base : ℕ) (relocs : List Reloc) (body : Body) (operands : List Operand)
        → windows_of base relocs body ≡ Ok operands → operands ≡ map (operand_at base relocs) (immediates body.code) }
{}

/// The windows of a body's operands lie where its immediates do, one behind another, and so do those
/// of its references alone.
pub fn windows_stand_in_bodies()
    ensures all { (base from end : ℕ) (relocs : List Reloc) (body : Body) (operands : List Operand)
        → AreInOrder from end (immediates body.code) → windows_of base relocs body ≡ Ok operands → StandIn from end operands }
    ensures references { (from end : ℕ) (operands : List Operand) → StandIn from end operands → StandIn from end (filter is_reference operands) }
{}

/// The references that a list of operands is kept as are those of the list.
pub fn references_are_kept()
    ensures { (references : List Reference) (behind : ℕ) → filter is_reference (spread references behind) ≡ filter is_reference (map operand_of references) }
{}
