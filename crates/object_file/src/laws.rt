//! What holds of objects, as calls that do nothing: their contracts are the laws.
ghost use Rattle.std.specs.Prelude.{◌≡◌, ℕ, List, length, All, Ok};
ghost use Rattle.object_file.specs.declared.object.Object.{Object as Read};
ghost use Rattle.object_file.specs.ObjectOf.{IsObject, object_of};
ghost use Rattle.object_file.specs.Addresses.{ReadsAddresses};
ghost use Rattle.object_file.specs.Bodies.{BodyStands};
ghost use Rattle.object_file.specs.Spaces.{function_types, global_types};
ghost use Rattle.object_file.specs.Sound.{function_count, global_count, Sound};
ghost use Rattle.object_file.specs.Spellable.{IsSpellable};

/// What is read is an object, and an object is read, whatever memory there is: the definition by
/// reading is the grammar.
pub fn objects_are_read()
    ensures found { (input : ℕ) (bytes : List ℕ) (object : Read)
        → object_of input bytes ≡ Ok object → IsObject input bytes object }
    ensures again { (input : ℕ) (bytes : List ℕ) (object : Read)
        → IsObject input bytes object → object_of input bytes ≡ Ok object }
{}

/// No bytes are two objects.
pub fn object_is_unambiguous()
    ensures { (input : ℕ) (bytes : List ℕ) (a b : Read)
        → IsObject input bytes a → IsObject input bytes b → a ≡ b }
{}

/// Of an object that was read: its indexes are in range, its symbols have names, its parts lie in its
/// bytes, and its relocations name what their types ask for. `read_object` gives the premise.
pub fn read_objects_are_sound()
    ensures input { (input : ℕ) (bytes : List ℕ) (object : Read) → IsObject input bytes object → object.input ≡ input }
    ensures sound { (input : ℕ) (bytes : List ℕ) (object : Read) → IsObject input bytes object → Sound (length bytes) object }
{}

/// Of an object that was read: the bytes of each function spell its body, and its operands stand on
/// the immediates of that body, one for each, in order.
pub fn operands_stand_on_immediates()
    ensures { (input : ℕ) (bytes : List ℕ) (object : Read) → IsObject input bytes object → All (BodyStands bytes) object.functions }
{}

/// Of an object that was read: its names are UTF-8, its flags and the types of its relocations are
/// known, and its numbers are in the ranges of their forms.
pub fn read_objects_are_spellable()
    ensures { (input : ℕ) (bytes : List ℕ) (object : Read) → IsObject input bytes object → IsSpellable object }
{}

/// Of an object that was read: an instruction whose window is for a global and names a datum or a
/// function, so its address, reads it (`global.get`). Bodies set globals alone.
pub fn addresses_are_only_read()
    ensures { (input : ℕ) (bytes : List ℕ) (object : Read)
        → IsObject input bytes object → All (ReadsAddresses bytes object) object.functions }
{}

/// How many functions and globals an object has: those that are imported and those that are defined.
pub fn index_spaces_are_counted()
    ensures functions { (object : Read) → length (function_types object) ≡ function_count object }
    ensures globals { (object : Read) → length (global_types object) ≡ global_count object }
{}
