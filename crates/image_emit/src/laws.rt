//! What holds of the bytes of a module, as calls that do nothing: their contracts are the laws.
ghost use Rattle.std.specs.Prelude.{◌≡◌, ◌≤◌, ◌↔◌, [], length, take, drop, Some, None, Ok};
ghost use Rattle.wasm_module.specs.declared.structure.Module.{Module};
ghost use Rattle.wasm_module.specs.Modules.{IsModule};
ghost use Rattle.wasm_module.specs.ModuleReading.{module_of};
ghost use Rattle.wasm_module.specs.wasm_instr.wl_base.declared.span.Span.{Span as Place};
ghost use Rattle.image_emit.specs.Bytes.{Tree, bytes_of, sized, vector};
ghost use Rattle.image_emit.specs.Pieces.{code_place};
ghost use Rattle.image_emit.specs.Rows.{call_tree};
ghost use Rattle.image_emit.specs.Spelled.{IsTree, IsSpellable, entries, named_in_elements};

/// The bytes of a tree are a module, by the grammar of modules, exactly where that is the tree's. Then they are read as it.
///
/// It is asked that there are fewer than 2^32 bytes, that the tree's numbers are in their ranges and its names UTF-8, that a
/// custom section begins with a name, and that there are as many bodies as functions. A module is the tree's where all its
/// parts are, and each body's bytes spell its body.
pub fn bytes_are_the_module()
    ensures spelled { (t : Tree) (m : Module) → IsSpellable t → IsModule m (bytes_of t) ↔ IsTree m t }
    ensures read { (t : Tree) (m : Module) → IsSpellable t → IsTree m t → module_of (bytes_of t) ≡ Ok m }
{}

/// The bytes of a tree are no other module.
pub fn bytes_are_no_other()
    ensures { (t : Tree) (m other : Module) → IsSpellable t → IsTree m t → IsModule other (bytes_of t) → other ≡ m }
{}

/// The payload of the code section stands in the bytes where `code_place` says, and it says none only where there is no body.
pub fn the_code_stands_at_its_place()
    ensures stands { (t : Tree) (s : Place) → code_place t ≡ Some s → take s.len (drop s.start (bytes_of t)) ≡ vector sized t.bodies }
    ensures none { (t : Tree) → code_place t ≡ None → t.bodies ≡ [] }
{}

/// The bytes are at least as many as the entries of all sections, and as the functions that element segments name.
pub fn entries_take_bytes()
    ensures entries { (t : Tree) → entries t ≤ length (bytes_of t) }
    ensures elements { (t : Tree) → length (named_in_elements t) ≤ length (bytes_of t) }
{}

/// What is asked of a tree can be met: the worked tree of two functions meets it, and has a module.
pub fn a_tree_has_a_module()
    ensures spellable { IsSpellable call_tree }
    ensures module { (m : Module) × IsTree m call_tree }
{}
