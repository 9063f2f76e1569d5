//! What holds of every form, as calls that do nothing: their contracts are the laws.
ghost use Rattle.std.specs.Prelude.{◌≡◌, ◌++◌, List, ℕ, Ok};
ghost use Rattle.wasm_grammar.specs.Readers.{IsUnambiguous};

use crate::vector::Form;

/// No spelling has two values, and none begins another.
pub fn one_value<T: Form>()
    ensures { IsUnambiguous T.spells }
{}

/// What is spelled is read, with the bytes that follow left over, whatever they are.
pub fn read_again<T: Form>()
    ensures { (end : ℕ) (x : T) (text rest : List ℕ) → T.spells x text
        → T.read_at end (text ++ rest) ≡ Ok (x, rest) }
{}
