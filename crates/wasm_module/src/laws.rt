//! What holds of the grammars and of reading, as calls that do nothing: their contracts are the
//! laws.
ghost use Rattle.std.specs.Prelude.{◌≡◌, ℕ, Bool, List, Ok};
ghost use Rattle.wasm_instr.specs.wasm_grammar.Readers.{IsUnambiguous};
ghost use Rattle.wasm_instr.specs.wasm_grammar.Stays.{IsSteady};
ghost use Rattle.wasm_module.specs.declared.structure.Module.{Module};
ghost use Rattle.wasm_module.specs.Parts.{SpellsInit, SpellsGlobal, SpellsExport, SpellsElement, SpellsDataSegment};
ghost use Rattle.wasm_module.specs.PartReading.{init_at, global_at, export_at, element_at, data_segment_at};
ghost use Rattle.wasm_module.specs.Modules.{IsModule, SameButPlaces, IsModuleButPlaces};
ghost use Rattle.wasm_module.specs.ModuleReading.{module_of};

/// No bytes are two modules.
pub fn module_is_unambiguous()
    ensures { (a b : Module) (bytes : List ℕ) → IsModule a bytes → IsModule b bytes → a ≡ b }
{}

/// What is written of a module is read again, as the same module but for the places in its bodies.
pub fn written_module_is_read()
    ensures { (m : Module) (bytes : List ℕ) → IsModuleButPlaces m bytes
        → (other : Module) × SameButPlaces m other × (module_of bytes ≡ Ok other) }
{}

/// No spelling of a part has two values, and none begins another.
pub fn parts_are_unambiguous()
    ensures init { (get : Bool) → IsUnambiguous (SpellsInit get) }
    ensures global { (get : Bool) → IsUnambiguous (SpellsGlobal get) }
    ensures export { IsUnambiguous SpellsExport }
    ensures element { (get : Bool) → IsUnambiguous (SpellsElement get) }
    ensures data_segment { (get : Bool) → IsUnambiguous (SpellsDataSegment get) }
{}

/// A foreign item in a part is the answer, whatever follows it.
pub fn parts_are_steady()
    ensures init { (get : Bool) → IsSteady (init_at get) }
    ensures global { (get : Bool) → IsSteady (global_at get) }
    ensures export { IsSteady export_at }
    ensures element { (get : Bool) → IsSteady (element_at get) }
    ensures data_segment { (get : Bool) → IsSteady (data_segment_at get) }
{}
