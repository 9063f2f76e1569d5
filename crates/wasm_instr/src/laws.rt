//! What holds of the grammars, as calls that do nothing: their contracts are the laws.
ghost use Rattle.std.specs.Prelude.{◌≡◌, ◌++◌, List, ℕ};
ghost use Rattle.wasm_instr.specs.declared.body.Body.{Body};
ghost use Rattle.wasm_instr.specs.declared.instr.Instr.{Instr};
ghost use Rattle.wasm_grammar.specs.Readers.{IsUnambiguous};
ghost use Rattle.wasm_grammar.specs.Stays.{Stays};
ghost use Rattle.wasm_instr.specs.Instrs.{SpellsInstr};
ghost use Rattle.wasm_instr.specs.Reading.{instr_at};
ghost use Rattle.wasm_instr.specs.Bodies.{Nest, step_of, SpellsBody, body_at};
ghost use Rattle.wasm_instr.specs.Places.{HasRisingPlaces};
ghost use Rattle.wasm_instr.specs.Skimming.{outline_of, outline_step};

/// No spelling has two instructions, and none begins another.
pub fn instr_is_unambiguous()
    ensures { IsUnambiguous SpellsInstr }
{}

/// No bytes are two bodies.
pub fn body_is_unambiguous()
    ensures { (a b : Body) (bytes : List ℕ) → SpellsBody a bytes → SpellsBody b bytes → a ≡ b }
{}

/// A foreign opcode or value type is the answer, whatever follows it.
pub fn instr_is_steady()
    ensures { (end other : ℕ) (bytes more : List ℕ) → Stays (instr_at end bytes) (instr_at other (bytes ++ more)) }
{}

/// A foreign item in a body is the answer, whatever follows it.
pub fn body_is_steady()
    ensures { (bytes more : List ℕ) → Stays (body_at bytes) (body_at (bytes ++ more)) }
{}

/// In a body the places rise: the first instruction begins where the locals end, each other one
/// where the one before it ends, and the last one ends where the body does.
pub fn places_rise()
    ensures { (body : Body) (bytes : List ℕ) → SpellsBody body bytes → HasRisingPlaces body bytes }
{}

/// An outline tells all that an instruction does to the open blocks.
pub fn outlines_tell_blocks()
    ensures { (nest : Nest) (x : Instr) → step_of nest x ≡ outline_step nest (outline_of x) }
{}
