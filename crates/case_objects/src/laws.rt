//! What holds of the definitions, as calls that do nothing: their contracts are the laws.
ghost use Rattle.std.specs.Prelude.{◌≡◌, ℕ, List, length};
ghost use Rattle.wasm_module.specs.declared.structure.Module.{Module};
ghost use Rattle.wasm_module.specs.Modules.{IsModule};
ghost use Rattle.case_objects.specs.Functions.{functions_in};

/// The functions that are counted in a module's bytes are those that the module defines.
#[tactic(auto, using(crate::proofs::ModuleCount::module_count))]
pub fn module_functions_are_counted()
    ensures { (m : Module) (bytes : List ℕ) → IsModule m bytes → functions_in bytes ≡ length m.functions }
{}
